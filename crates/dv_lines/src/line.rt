//! Lines.

use crate::nonce::Nonce;
use crate::policy::Policy;
use crate::service::Service;
use dv_time::Moment;

/// A line of the program, with its values.
#[derive(Debug, Drop)]
pub enum Line<'a> {
    /// `request SERVICE FILE [--nonce HEX] [--at TIME]`: the request for the file.
    Request {
        /// The service that is asked for.
        service: Service,
        /// The file's name.
        file: &'a str,
        /// The request's nonce.
        nonce: Option<Nonce>,
        /// The request's time.
        at: Option<Moment>,
    },
    /// `request cpkc FILE.. [--nonce HEX] [--at TIME]`: the request for the validation of a certificate.
    Validate {
        /// The names of the files: the target's, and then those of the certificates of its chain, 1 to 16 in all.
        files: Vec<&'a str>,
        /// The request's nonce.
        nonce: Option<Nonce>,
        /// The request's time.
        at: Option<Moment>,
    },
    /// `show FILE`: what the file's values are, in words.
    Show {
        /// The file's name.
        file: &'a str,
    },
    /// `init REGISTER SEED NAME --from TIME --days N [--first N]`: a new register, with the certificate of its key.
    Init {
        /// The name of the register's file.
        register: &'a str,
        /// The name of the file that holds the seed of the key.
        seed: &'a str,
        /// The server's name, 1 to 64 octets in UTF-8.
        name: &'a str,
        /// The first moment at which the key stands.
        from: Moment,
        /// The last one: `from` and the days of the line.
        until: Moment,
        /// The serial of the key's certificate, from 1 to 2^62.
        first: u64,
    },
    /// `serve REGISTER SEED CERTIFICATE TRUST [--policy OID]`: answers the requests of the standard input.
    Serve {
        /// The name of the register's file.
        register: &'a str,
        /// The name of the file that holds the seed of the key.
        seed: &'a str,
        /// The name of the file that holds the server's certificates.
        certificate: &'a str,
        /// The name of the file that holds the certificates which are trusted.
        trust: &'a str,
        /// The policy that the server's certificates name.
        policy: Option<Policy>,
    },
    /// `reissue REGISTER SEED SERIAL`: a certificate of the register once more.
    Reissue {
        /// The name of the register's file.
        register: &'a str,
        /// The name of the file that holds the seed of the key.
        seed: &'a str,
        /// The certificate's serial.
        serial: u64,
    },
}
