//! What a request asks for.

ghost use Rattle.std.specs.Prelude.{◌≡◌, ◌<◌, ◌≤◌, ◌⊎◌, MatchOption};
ghost use Rattle.dv_schema.specs.Reading.{read};
ghost use Rattle.dv_schema.specs.Answers.{Reads};
ghost use Rattle.dv_request.specs.Information.{number_of};
ghost use Rattle.dv_request.specs.Types.{service_type};

use dv_asn1::{Cursor, Der, Why};

/// A service (RFC 3029 2, 7.6), with the number that names it.
#[derive(Clone, Copy, Debug, PartialEq, Eq)]
pub enum Service {
    /// Certifies possession of data.
    Cpd = 1,
    /// Validates a signed document.
    Vsd = 2,
    /// Validates public key certificates.
    Cpkc = 3,
    /// Certifies a claim of possession by a digest.
    Ccpd = 4,
}

impl Service {
    /// The number that names it.
    pub fn number(self) -> u8
        ensures { result ≡ number_of self }
    {
        match self {
            Service::Cpd => 1,
            Service::Vsd => 2,
            Service::Cpkc => 3,
            Service::Ccpd => 4,
        }
    }

    /// The service that a number names; None for 0 and from 5 on.
    fn of_number(number: u64) -> Option<Service>
        ensures { MatchOption result ((number ≡ 0) ⊎ (5 ≤ number)) (λ s. number_of s ≡ number) }
    {
        match number {
            1 => Some(Service::Cpd),
            2 => Some(Service::Vsd),
            3 => Some(Service::Cpkc),
            4 => Some(Service::Ccpd),
            _ => None,
        }
    }

    /// Reads a service. `Value` where no service has the number.
    #[tactic(auto, unfolding(dv_schema::specs::Reading::read))]
    pub(crate) fn read(c: &mut Cursor<'_>) -> Result<Service, Der>
        ensures { Reads number_of result c.old c.new (read service_type c.old) }
    {
        let mut next = c.fork();
        let number = next.read_number(0x0A, 4)?;
        match Service::of_number(number) {
            None => Err(c.refusal(Why::Value)),
            Some(service) => {
                *c = next;
                Ok(service)
            }
        }
    }
}
