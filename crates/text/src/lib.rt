// The text that `pagerun` prints, made into a lent buffer from the answers of the run and what they name (RULES, section 8).
#![tactic(auto)]

mod rightsum;

ghost use Rattle.std.specs.Prelude.{◌≡◌, [], ◌∷◌, map, ◌+◌, ◌*◌, ◌-◌, ◌%◌, ◌≤◌, ◌<◌, length, drop, eqb};
ghost use Rattle.rules.specs.Refusals.{pick};
ghost use Rattle.run.specs.Run.{report_named};
ghost use Rattle.text.specs.Text.{letters, leading_digit, decimal_of, column, name_text, line_of, lines_from, load_line, run_text, text_of, printed};
ghost use Rattle.text.specs.Put.{Put};
ghost use Rattle.text.specs.Writing.{HasRoom, Wrote};

pub use rightsum::rights_text;
use run::{calls_start, run_named};

// A text in a lent buffer: its first `size` bytes. Each writer puts its piece behind them, where the caller has seen that there is room, and leaves the others as they
// were.
#[derive(Drop)]
struct Text<'a> {
    out: &'a mut [u8],
    size: usize,
}

impl Text<'_> {
    // One byte.
    fn put_byte(&mut self, byte: u8)
        requires { HasRoom 1 self.old }
        ensures { Wrote self.old self.new (byte ∷ []) }
    {
        self.out[self.size] = byte;
        self.size += 1;
    }

    // Bytes as they are.
    fn put_bytes(&mut self, bytes: &[u8])
        requires { HasRoom (length bytes.now) self.old }
        ensures { Wrote self.old self.new bytes.now }
    {
        let end = self.size + bytes.len();
        self.out[self.size..end].copy_from_slice(bytes);
        self.size = end;
    }

    // The digit of n that counts a power of ten, where n has it.
    fn put_leading(&mut self, n: u32, power: u32)
        requires room { HasRoom 1 self.old }
        requires power_nonzero { 0 < power }
        ensures { Wrote self.old self.new (leading_digit n power) }
    {
        if power <= n {
            self.put_byte(b'0' + (n / power % 10) as u8);
        }
    }

    // A number below 100,000 in decimal; of a greater one the last five digits, as `decimal_of` says it, so that this is not `Display`.
    fn put_decimal(&mut self, n: u32)
        requires { HasRoom 5 self.old }
        ensures { Wrote self.old self.new (decimal_of n) }
    {
        for power in [10000, 1000, 100, 10] {
            self.put_leading(n, power);
        }
        self.put_byte(b'0' + (n % 10) as u8);
    }

    // A space and such a number.
    fn put_column(&mut self, n: u32)
        requires { HasRoom 6 self.old }
        ensures { Wrote self.old self.new (column (decimal_of n)) }
    {
        self.put_byte(b' ');
        self.put_decimal(n);
    }

    // A space and the domain that a name stands for, one below the name, or that there is none. Names are the run's numbers (RULES 7.7).
    fn put_name(&mut self, name: u32)
        requires { HasRoom 6 self.old }
        ensures { Wrote self.old self.new (column (name_text (report_named name))) }
    {
        match name.checked_sub(1) {
            Some(domain) => self.put_column(domain),
            None => self.put_bytes(b" -"),
        }
    }

    // The line of a call: its number, its answer and what that names.
    fn put_line(&mut self, i: u32, answer: u8, name: u32)
        requires { HasRoom 18 self.old }
        ensures { Wrote self.old self.new (line_of i answer (report_named name)) }
    {
        self.put_decimal(i);
        self.put_column(u32::from(answer));
        self.put_name(name);
        self.put_byte(b'\n');
    }

    // The first line: the load's answer.
    fn put_load(&mut self, answer: u8)
        requires { HasRoom 11 self.old }
        ensures { Wrote self.old self.new (load_line answer) }
    {
        self.put_bytes(b"load ");
        self.put_decimal(u32::from(answer));
        self.put_bytes(b"\n");
    }

    // The word for a remainder of the call bytes.
    fn put_cut(&mut self, left: usize)
        requires { HasRoom 4 self.old }
        ensures { Wrote self.old self.new (pick (eqb (left % 6) 0) [] (letters "cut\n")) }
    {
        if left % 6 != 0 {
            self.put_bytes(b"cut\n");
        }
    }

    // The lines of the calls, from the answers of a run, the load's first, and what they name: two lists, as `run_named` fills the two buffers of the bench (RULES 7.7).
    fn put_lines(&mut self, answers: &[u8], names: &[u32])
        requires answers_len_bound { length answers.now ≤ 65536 }
        requires names_len { length names.now ≡ length answers.now }
        requires room { HasRoom (18 * (length answers.now - 1)) self.old }
        ensures { Wrote self.old self.new (lines_from 1 (drop 1 answers.now) (map report_named (drop 1 names.now))) }
    {
        for i in 1..answers.len() {
            self.put_line(i as u32, answers[i], names[i]);
        }
    }

    // The text of an input that is not too long: such an input has at most 5,462 answers.
    fn put_run(&mut self, input: &[u8])
        requires { (length input.now ≤ 32768) × HasRoom 100000 self.old }
        ensures { Wrote self.old self.new (run_text input.now) }
    {
        let mut answers = [0u8; 5462];
        let mut names = [0u32; 5462];
        let count = run_named(input, &mut answers, &mut names);
        let number = answers[0];
        self.put_load(number);
        self.put_lines(&answers[..count], &names[..count]);
        if number == 0 {
            self.put_cut(input.len() - calls_start(input));
        }
    }

    // The text of an input.
    fn put_text(&mut self, input: &[u8])
        requires { HasRoom 100000 self.old }
        ensures { Wrote self.old self.new (text_of input.now) }
    {
        if 32768 < input.len() {
            self.put_bytes(b"long\n");
        } else {
            self.put_run(input);
        }
    }
}

// The text of an input, and how long it is: nothing where the buffer has under 100,000 bytes, which is room for every text.
pub fn text_of(input: &[u8], out: &mut [u8]) -> usize
    ensures { Put out.old 0 (printed input.now (length out.old)) out.new result }
{
    if out.len() < 100000 {
        return 0;
    }
    let mut text = Text { out, size: 0 };
    text.put_text(input);
    text.size
}
