// A case as it is read from left to right: a name and a colon, the word of an operation, and its numbers, of which those past
// the 32nd are left out.
ghost use Rattle.std.specs.Prelude.{◌≡◌, ◌%◌, false, eqb, [], None, map, take, get_or};

#[derive(Clone, Copy)]
pub struct Case {
    // Whether the name is over, and the first letter of the operation, where it has begun.
    pub named: bool,
    pub letter: Option<u8>,
    // There is room for 32 numbers.
    pub numbers: [u32; 32],
    pub count: usize,
    // The number that is being read, if one is.
    pub open: Option<u32>,
}

// One digit more, of a number of 32 bits.
fn with_digit(value: u32, b: u8) -> u32 {
    value.wrapping_mul(10).wrapping_add((b % b'0') as u32)
}

impl Case {
    pub fn new() -> Case
        ensures name { result.named ≡ false }
        ensures letter { result.letter ≡ None }
        ensures numbers { take result.count result.numbers ≡ [] }
        ensures open { result.open ≡ None }
    {
        Case {
            named: false,
            letter: None,
            numbers: [0; 32],
            count: 0,
            open: None,
        }
    }

    pub fn add_to_name(&mut self, b: u8)
        ensures name { self.new.named ≡ eqb b 58 }
        ensures numbers { take self.new.count self.new.numbers ≡ take self.old.count self.old.numbers }
    {
        self.named = b == b':';
    }

    // The number that was being read is over.
    pub fn close_number(&mut self)
        ensures { self.new.open ≡ None }
    {
        if let Some(value) = self.open {
            if self.count < 32 {
                self.numbers[self.count] = value;
                self.count += 1;
            }
        }
        self.open = None;
    }

    fn add_letter(&mut self, b: u8) {
        if self.letter.is_none() && b != b' ' && b != 0 {
            self.letter = Some(b);
        }
    }

    pub fn add(&mut self, b: u8) {
        if b.is_ascii_digit() {
            self.open = Some(with_digit(self.open.unwrap_or(0), b));
        } else {
            self.close_number();
            self.add_letter(b);
        }
    }

    // The i-th number, 0 where there is none.
    pub fn word(&self, i: usize) -> u32
        ensures { result ≡ get_or (take self.now.count self.now.numbers) i 0 }
    {
        self.numbers[..self.count.min(32)]
            .get(i)
            .copied()
            .unwrap_or(0)
    }

    // The numbers, each taken as one of a byte.
    pub fn bytes(&self) -> [u8; 32]
        ensures { result ≡ map (λ n. n % 256) self.now.numbers }
    {
        self.numbers.map(|n| (n % 256) as u8)
    }

    // The numbers, each taken as one of two bytes.
    pub fn shorts(&self) -> [u16; 32]
        ensures { result ≡ map (λ n. n % 65536) self.now.numbers }
    {
        self.numbers.map(|n| (n % 65536) as u16)
    }
}
