//! What the steps of an answer look at of a server.

ghost use Rattle.std.specs.Prelude.{◌≡◌};
ghost use Rattle.std.specs.Option.{ForSome, option_copied};
ghost use Rattle.dv_draft.specs.Servers.{IsPolicyName};
ghost use Rattle.dv_answer.specs.Steps.{is_valid_at as valid_at};

use dv_draft::Server;
use dv_time::Moment;
use dv_x509::Certificate;

/// The subject and the validity of a server's own certificate, which is the first, and the server's policy.
#[derive(Clone, Copy)]
pub(crate) struct Office<'a> {
    /// The whole Name.
    pub subject: &'a [u8],
    /// The first moment at which the certificate holds.
    pub from: Moment,
    /// The last one.
    pub until: Moment,
    /// The contents octets of a PolicyInformation that has an identifier alone.
    pub policy: Option<&'a [u8]>,
    ghost named: { ForSome (option_copied policy) IsPolicyName },
}

impl<'a> Office<'a> {
    ghost use Rattle.dv_answer.specs.Offices.{IsOffice, view_office};

    /// That of this server.
    pub fn of(server: &'a Server) -> Office<'a>
        ensures { IsOffice server.now (view_office result) }
    {
        let policy = policy_of(server);
        match Certificate::decode(server.certificates.as_slice()[0].as_slice(), 0x30) {
            Ok(own) => {
                // Read for their contract: each is a second that a moment may be.
                let _from = own.not_before.seconds();
                let _until = own.not_after.seconds();
                Office {
                    subject: own.subject.raw,
                    from: own.not_before,
                    until: own.not_after,
                    policy,
                }
            }
            Err(_) => unreachable!(),
        }
    }

    /// Whether the certificate holds at the moment.
    pub fn is_valid_at(&self, moment: Moment) -> bool
        ensures { result ≡ valid_at (view_office self.now) moment }
    {
        self.from <= moment && moment <= self.until
    }
}

/// The contents octets of a server's policy.
fn policy_of(server: &Server) -> Option<&[u8]>
    ensures { option_copied result ≡ server.now.policy }
{
    match &server.policy {
        None => None,
        Some(policy) => Some(policy.as_slice()),
    }
}
