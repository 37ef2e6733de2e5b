//! The status of a draft.

ghost use Rattle.std.specs.Prelude.{◌≡◌, ◌≤◌, length};
ghost use Rattle.std.specs.Option.{ForSome};
ghost use Rattle.dv_schema.specs.Schema.{spelling};
ghost use Rattle.dv_asn1.specs.Writing.{room_of, Writes};
ghost use Rattle.dv_status.specs.Views.{view_status as view_info};
ghost use Rattle.dv_draft.specs.Types.{plain_status};

use dv_asn1::Writer;
use dv_status::StatusInfo;

/// The tag of a status in a DVCSCertInfo (RFC 3029 9.1).
const STATUS: u8 = 0xA0;

/// The status of a service (a PKIStatusInfo without texts, RFC 4210 5.2.3): 0 is granted, 1 grantedWithMods, 2 rejection; 3 to
/// 6 are read and never written. At most one failure bit, counted from 0, stands beside it.
#[derive(Clone, Copy, Debug)]
pub struct Status {
    pub status: u8,
    pub bit: Option<u8>,
    ghost known: { status ≤ 6 },
    ghost bit_known: { ForSome bit (λ b. b ≤ 26) },
}

impl Status {
    ghost use Rattle.dv_draft.specs.Parts.{view_status};

    /// The same status as a PKIStatusInfo.
    fn info(&self) -> StatusInfo<'_>
        ensures { view_info result ≡ view_status self.now }
    {
        StatusInfo::new(self.status, self.bit)
    }

    /// How many octets the whole value has.
    pub fn encoded_len(&self) -> usize
        ensures { result ≡ length (spelling plain_status (view_status self.now)) }
    {
        self.info().encoded_len()
    }

    /// Writes the whole value, under tag A0.
    pub fn write(&self, out: &mut Writer<'_>)
        requires { length (spelling plain_status (view_status self.now)) ≤ room_of out.old }
        ensures { Writes out.old out.new (spelling plain_status (view_status self.now)) }
    {
        self.info().write_under(STATUS, out);
    }
}
