//! What the program says of its command lines.
ghost use Rattle.std.specs.Prelude.{◌≡◌, ◌≢◌, ◌↔◌};

use crate::status::Status;
use dv_lines::NoLine;
use dv_outside::Diag;
use std::alloc::Global;

/// Each command with its words and options.
pub const USAGE: &str = "usage: dv_notary request SERVICE FILE [--nonce HEX] [--at TIME]
       dv_notary request cpkc FILE.. [--nonce HEX] [--at TIME]
       dv_notary init REGISTER SEED NAME --from TIME --days N [--first N]
       dv_notary serve REGISTER SEED CERTIFICATE TRUST [--policy OID]
       dv_notary reissue REGISTER SEED SERIAL
       dv_notary show FILE
       dv_notary --help";

/// What each command does, and how its words are written.
pub const HELP: &str = "\
usage: dv_notary request SERVICE FILE [--nonce HEX] [--at TIME]
           puts a request for the file on the standard output
       dv_notary request cpkc FILE.. [--nonce HEX] [--at TIME]
           puts a request to validate the certificate in the first FILE on the standard output
       dv_notary init REGISTER SEED NAME --from TIME --days N [--first N]
           makes a register, and puts the certificate of its key on the standard output
       dv_notary serve REGISTER SEED CERTIFICATE TRUST [--policy OID]
           answers the requests of the standard input
       dv_notary reissue REGISTER SEED SERIAL
           puts a certificate that the register has once more on the standard output
       dv_notary show FILE
           says what the values in the file are, a line for each
       dv_notary --help
           says this

SERVICE      cpd: the file's octets are certified (at most 262000)
             vsd: the signed document in the file is validated (at most 262000 octets)
             ccpd: the SHA-256 of the file's octets is certified (at most 16777216)
FILE         a path from the working folder
FILE..       paths of 1 to 16 certificates in DER, each of at most 8192 octets: the one that is validated, and then
             those of its chain
REGISTER     a path of the register's file; it stands right behind the command
SEED         a path of the file that holds the key's seed: 60 octets, of which the first are DVSEED01
NAME         the server's name in the certificate of its key: 1 to 64 octets in UTF-8
CERTIFICATE  a path of 1 to 6 certificates in DER, one after another, the server's own first
TRUST        a path of 1 to 16 certificates in DER, one after another: the trust anchors of cpkc
SERIAL       a certificate's serial: 1 to 20 decimal digits, at most 18446744073709551615
--nonce HEX  the request's nonce: 2 to 128 hexadecimal digits, an even number, which spell an INTEGER in its
             fewest octets
--at TIME    the request's time
--from TIME  the first moment at which the key stands
--days N     for how many days it stands: 1 to 36500, up to 99991231235959Z
--first N    the serial of the key's certificate: 1 to 4611686018427387904, and 1 where it isn't given
--policy OID the policy that certificates name: decimal arcs with dots between them, at most 1024 octets
TIME         a moment in UTC: YYYYMMDDHHMMSSZ, from 1950 to 9999

An option is written --NAME VALUE or --NAME=VALUE, anywhere behind the command, or behind REGISTER where the command
has one, and at most once. Behind -- each word stands for itself; a FILE that begins with - stands there. A REGISTER
that begins with - is written ./-NAME.";

/// Writes each line of the text on the diagnostics.
fn say_lines<E: Diag>(diag: &mut E, text: &str) {
    for line in text.lines() {
        diag.line(line);
    }
}

/// Says on the diagnostics why the words are no line, or weren't read, and gives the status for it.
pub fn say_no_line<E: Diag>(alloc: Global, diag: &mut E, fault: &NoLine<'_>) -> Status
    ensures words { result ≢ Status.Memory → result ≡ Status.Words }
    ensures memory { (result ≡ Status.Memory) ↔ (fault.now ≡ NoLine.Memory) }
{
    match fault {
        NoLine::Help => say_lines(diag, HELP),
        NoLine::Memory => {
            diag.line("there is not enough memory for the words");
            return Status::Memory;
        }
        NoLine::Faulty(faulty) => {
            if let Ok(text) = format!(in alloc; "{faulty}") {
                diag.line(text.as_str());
            }
            say_lines(diag, USAGE);
        }
    }
    Status::Words
}
