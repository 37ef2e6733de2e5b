//! A writer of DER values into a slice.

ghost use Rattle.std.specs.Prelude.{◌≡◌, ◌≤◌, ◌<◌, ◌+◌, ◌^◌, ◌∷◌, [], ◌++◌, take, length, slice_index};
ghost use Rattle.std.specs.Int.Digits.{digits_of};
ghost use Rattle.dv_schema.specs.Tlv.{tlv, length_octets, integer_octets};

/// The first length octet that stands for a number of length octets behind it, less that number (X.690 8.1.3.5).
const LONG_FORM: u8 = 128;

/// Writes values one after another into a slice, from its front.
///
/// Each writing call has the condition that its octets fit [`room`](Writer::room). What a call wrote is stated by
/// `Writes`: its octets stand behind what was written before, and the room is less by as many.
#[derive(Drop)]
pub struct Writer<'a> {
    into: &'a mut [u8],
    at: usize,
    ghost within: { at ≤ length into.now },
}

impl<'a> Writer<'a> {
    ghost use Rattle.dv_asn1.specs.Writing.{reference_of, room_of, text_of, Writes};

    /// A writer at the front of the slice, with the whole slice as its room.
    pub fn new(into: &'a mut [u8]) -> Writer<'a>
        ensures same_reference { reference_of result ≡ into.entry.ghost_name }
        ensures text { text_of result ≡ [] }
        ensures room { room_of result ≡ length into.old }
    {
        Writer { into, at: 0 }
    }

    /// How many octets can still be written.
    pub fn room(&self) -> usize
        ensures { result ≡ room_of self.now }
    {
        self.into.len() - self.at
    }

    /// How many octets were written.
    pub fn written(&self) -> usize
        ensures { result ≡ length (text_of self.now) }
    {
        self.at
    }

    /// Writes these octets as they are.
    pub fn bytes(&mut self, bytes: &[u8])
        requires { length bytes.now ≤ room_of self.old }
        ensures { Writes self.old self.new bytes.now }
    {
        self.at = put(self.into, self.at, bytes);
    }

    /// Writes the header of a value whose contents have this many octets: the tag and the least length octets.
    pub fn header(&mut self, tag: u8, contents: usize)
        requires { length (tag ∷ length_octets contents) ≤ room_of self.old }
        ensures { Writes self.old self.new (tag ∷ length_octets contents) }
    {
        if contents < 128 {
            self.bytes(&[tag, contents as u8]);
        } else {
            self.bytes(&[tag, LONG_FORM + digit_count(contents as u64)]);
            self.digits(contents as u64);
        }
    }

    /// Writes a whole value.
    pub fn tlv(&mut self, tag: u8, contents: &[u8])
        requires { length (tlv tag contents.now) ≤ room_of self.old }
        ensures { Writes self.old self.new (tlv tag contents.now) }
    {
        self.header(tag, contents.len());
        self.bytes(contents);
    }

    /// Writes a whole INTEGER that isn't negative, or an ENUMERATED, under this tag (X.690 8.3, 8.4).
    pub fn number(&mut self, tag: u8, value: u64)
        requires { length (tlv tag (integer_octets value)) ≤ room_of self.old }
        ensures { Writes self.old self.new (tlv tag (integer_octets value)) }
    {
        self.header(tag, number_len(value));
        self.integer(value);
    }

    /// Writes the contents of an INTEGER that isn't negative: a zero octet before digits that would read as negative.
    fn integer(&mut self, value: u64)
        requires { length (integer_octets value) ≤ room_of self.old }
        ensures { Writes self.old self.new (integer_octets value) }
    {
        if value == 0 {
            self.bytes(&[0]);
        } else if first_digit(value) < 128 {
            self.digits(value);
        } else {
            self.bytes(&[0]);
            self.digits(value);
        }
    }

    /// Writes the digits of a number in base 256, the highest first and none for 0.
    fn digits(&mut self, number: u64)
        requires { length (digits_of 256 number) ≤ room_of self.old }
        ensures { Writes self.old self.new (digits_of 256 number) }
    {
        if number > 0 {
            self.digits(number / 256);
            self.bytes(&[(number % 256) as u8]);
        }
    }
}

/// Writes the bytes into the slice at this index, and gives the index behind them.
fn put(into: &mut [u8], at: usize, bytes: &[u8]) -> usize
    requires { at + length bytes.now ≤ length into.old }
    ensures text { take result into.new ≡ take at into.old ++ bytes.now }
    ensures end { result ≡ at + length bytes.now }
{
    let end = at + bytes.len();
    into[at..end].copy_from_slice(bytes);
    end
}

/// How many octets stand before contents of this length: the tag and the least length octets.
pub fn header_len(contents: usize) -> usize
    ensures count { result ≡ 1 + length (length_octets contents) }
    ensures few { result ≤ 10 }
{
    match contents {
        0..128 => 2,
        _ => 2 + digit_count(contents as u64) as usize,
    }
}

/// How many octets a value with contents of this length has: its tag, the least length octets, and the contents.
pub fn value_len(contents: usize) -> usize
    requires { contents < 2 ^ 63 }
    ensures octets { result ≡ 1 + length (length_octets contents) + contents }
    ensures few { result ≤ contents + 10 }
{
    header_len(contents) + contents
}

/// How many contents octets the INTEGER of this number has.
pub fn number_len(value: u64) -> usize
    ensures count { result ≡ length (integer_octets value) }
    ensures few { result ≤ 9 }
{
    if value == 0 {
        return 1;
    }
    let digits = digit_count(value) as usize;
    if first_digit(value) >= 128 {
        digits + 1
    } else {
        digits
    }
}

/// How many digits the number has in base 256, none for 0.
fn digit_count(number: u64) -> u8
    ensures count { result ≡ length (digits_of 256 number) }
    ensures few { result ≤ 8 }
{
    let mut count = 0;
    let mut rest = number;
    while rest > 0 {
        rest /= 256;
        count += 1;
    }
    count
}

/// The highest digit of the number in base 256.
fn first_digit(number: u64) -> u8
    requires { 0 < number }
    ensures { result ≡ slice_index (digits_of 256 number) 0 }
{
    let mut rest = number;
    while rest >= 256 {
        rest /= 256;
    }
    rest as u8
}

#[cfg(test)]
mod tests;
