// The text that `rightsum` prints, made into a lent buffer from what is counted (RULES, section 13).
ghost use Rattle.std.specs.Prelude.{◌++◌, ◌+◌, ◌≤◌, length, get_or};
ghost use Rattle.text.specs.Text.{decimal_of, column};
ghost use Rattle.text.specs.Rights.{sum_of, sums_of, domain_lines, total_line, refused_line, numbers_text, rights_text, printed_rights};
ghost use Rattle.text.specs.Put.{Put};
ghost use Rattle.text.specs.Writing.{HasRoom, Wrote};

use crate::Text;
use rights::{Sums, count_rights};

impl Text<'_> {
    // A space and a number below 1,000,000; of a greater one the last six digits.
    fn put_sum(&mut self, n: u32)
        requires { HasRoom 7 self.old }
        ensures { Wrote self.old self.new (column (sum_of n)) }
    {
        self.put_byte(b' ');
        self.put_leading(n, 100000);
        self.put_decimal(n);
    }

    // The two numbers of a line, and its end.
    fn put_sums(&mut self, reads: u32, writes: u32)
        requires { HasRoom 15 self.old }
        ensures { Wrote self.old self.new (sums_of reads writes) }
    {
        self.put_sum(reads);
        self.put_sum(writes);
        self.put_byte(b'\n');
    }

    // The line of a domain.
    fn put_domain(&mut self, s: u32, reads: u32, writes: u32)
        requires { HasRoom 20 self.old }
        ensures { Wrote self.old self.new (decimal_of s ++ sums_of reads writes) }
    {
        self.put_decimal(s);
        self.put_sums(reads, writes);
    }

    // The lines of the domains.
    fn put_domains(&mut self, sums: &Sums)
        requires { HasRoom 320 self.old }
        ensures { Wrote self.old self.new (domain_lines (λ s. get_or sums.now.reads s 0) (λ s. get_or sums.now.writes s 0) 0 16) }
    {
        for s in 0..16 {
            self.put_domain(s as u32, sums.reads[s], sums.writes[s]);
        }
    }

    // The line of the totals.
    fn put_total(&mut self, read_total: u32, write_total: u32)
        requires { HasRoom 20 self.old }
        ensures { Wrote self.old self.new (total_line read_total write_total) }
    {
        self.put_bytes(b"total");
        self.put_sums(read_total, write_total);
    }

    // The line of the images that did not load.
    fn put_refused(&mut self, refused: u32)
        requires { HasRoom 14 self.old }
        ensures { Wrote self.old self.new (refused_line refused) }
    {
        self.put_bytes(b"refused");
        self.put_column(refused);
        self.put_byte(b'\n');
    }

    // The text of what is counted.
    fn put_counted(&mut self, sums: &Sums)
        requires { HasRoom 512 self.old }
        ensures { Wrote self.old self.new (numbers_text (λ s. get_or sums.now.reads s 0) (λ s. get_or sums.now.writes s 0) (get_or sums.now.reads 16 0) (get_or sums.now.writes 16 0) sums.now.refused) }
    {
        self.put_domains(sums);
        self.put_total(sums.reads[16], sums.writes[16]);
        self.put_refused(sums.refused);
    }

    // The text of the images of an input.
    fn put_rights(&mut self, input: &[u8])
        requires { HasRoom 512 self.old }
        ensures { Wrote self.old self.new (rights_text input.now) }
    {
        match count_rights(input) {
            None => self.put_bytes(b"long\n"),
            Some(sums) => self.put_counted(&sums),
        }
    }
}

// The rights over the images of an input as a text, and how long it is: nothing where the buffer has under 512 bytes, which is room for every text.
pub fn rights_text(input: &[u8], out: &mut [u8]) -> usize
    ensures { Put out.old 0 (printed_rights input.now (length out.old)) out.new result }
{
    if out.len() < 512 {
        return 0;
    }
    let mut text = Text { out, size: 0 };
    text.put_rights(input);
    text.size
}
