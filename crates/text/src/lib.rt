// Text put into a lent buffer, one after another.
// Inner functions: the report and the drawn cases' program stay below what is required, which is there for the sums alone: no text ends past `last_place`.
#![tactic(auto)]

ghost use Rattle.std.specs.Prelude.{◌≡◌, [], ◌∷◌, ◌+◌, ◌*◌, ◌<◌, length};
ghost use Rattle.text.specs.Text.{decimal, hex_digit, hex_pair, hex_pairs, longest_decimal, named};

use base::put;

// The most digits of a number.
pub const LONGEST_DECIMAL: usize = 20;

// A page: a lent buffer, and the place in it for the next byte. Bytes that find no room are dropped: the place moves on all the same, so that the last place is
// the length that the whole text needs.
#[derive(Drop)]
pub struct Page<'a> {
    pub bytes: &'a mut [u8],
    pub place: usize,
}

impl<'a> Page<'a> {
    ghost use Rattle.text.specs.Inner.Page.{Adds, HasRoom};

    // A page on which nothing is put yet.
    pub fn new(bytes: &'a mut [u8]) -> Page<'a>
        ensures same_buffer { result.bytes.ghost_name ≡ bytes.entry.ghost_name }
        ensures untouched { result.bytes.now ≡ bytes.old }
        ensures start { result.place ≡ 0 }
    {
        Page { bytes, place: 0 }
    }

    // Puts one byte.
    pub fn put_byte(&mut self, b: u8)
        requires { HasRoom 1 self.old }
        ensures { Adds 1 (b ∷ []) self.old self.new }
    {
        put(self.bytes, self.place, b);
        self.place += 1;
    }

    // Puts a text as it stands.
    pub fn put_text(&mut self, text: &[u8])
        requires { HasRoom (length text.now) self.old }
        ensures { Adds (length text.now) text.now self.old self.new }
    {
        for b in text {
            self.put_byte(*b);
        }
    }

    // Puts a number in decimal digits: those of a tenth of it, and the last one. The library's own printing may fail, and this may not.
    pub fn put_decimal(&mut self, x: u64)
        requires { HasRoom longest_decimal self.old }
        ensures { Adds longest_decimal (decimal x) self.old self.new }
    {
        if x < 10 {
            return self.put_byte(b'0' + x as u8);
        }
        self.put_decimal(x / 10);
        self.put_byte(b'0' + (x % 10) as u8);
    }

    // Puts a number after its name.
    pub fn put_named(&mut self, name: &[u8], x: u64)
        requires { HasRoom (length name.now + longest_decimal) self.old }
        ensures { Adds (length name.now + longest_decimal) (named name.now x) self.old self.new }
    {
        self.put_text(name);
        self.put_decimal(x);
    }

    // Puts a byte as two hexadecimal digits.
    fn put_hex_pair(&mut self, b: u8)
        requires { HasRoom 2 self.old }
        ensures { Adds 2 (hex_pair b) self.old self.new }
    {
        self.put_byte(hex_digit(b / 16));
        self.put_byte(hex_digit(b % 16));
    }

    // Puts the bytes of a slice as hexadecimal pairs parted by single spaces.
    pub fn put_hex_pairs(&mut self, bytes: &[u8])
        requires { HasRoom (3 * length bytes.now) self.old }
        ensures { Adds (3 * length bytes.now) (hex_pairs bytes.now) self.old self.new }
    {
        let Some((first, further)) = bytes.split_first() else {
            return;
        };
        self.put_hex_pair(*first);
        for b in further {
            self.put_byte(b' ');
            self.put_hex_pair(*b);
        }
    }
}

// A hexadecimal digit. Std's `char::from_digit` gives the small letters.
fn hex_digit(d: u8) -> u8
    requires { d < 16 }
    ensures { result ≡ hex_digit d }
{
    if d < 10 { b'0' + d } else { b'A' + (d - 10) }
}
