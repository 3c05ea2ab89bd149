// The rights over a site (RULES, section 13): from the images of an input to how many rights each domain has over all of them.
#![tactic(auto)]

ghost use Rattle.std.specs.Prelude.{◌≡◌, [], ◌∷◌, ◌+◌, ◌*◌, ◌≤◌, length, MatchOption};
ghost use Rattle.machine.specs.Machine.{place_of};
ghost use Rattle.image.specs.Bytes.{entries};
ghost use Rattle.image.specs.Load.{field_at};
ghost use Rattle.rights.specs.Counted.{counted_as};
ghost use Rattle.rights.specs.Site.{Whole, images_of, counted_of};
ghost use Rattle.rights.specs.Adding.{added, Column, Within, with_images, IsSplit, IsCut};

use image::bytes::{byte_at, field_at, word_of};
use image::refusals::check_load;
use rules::domains::{domain_count, holds_domain};

// What is counted over images (RULES 13.8): for each right the rights of domain s at place s, and their total at place 16; and the images that did not load.
#[derive(Clone, Copy, Debug, PartialEq, Eq)]
pub struct Sums {
    pub reads: [u32; 17],
    pub writes: [u32; 17],
    pub refused: u32,
}

// Adds the domains of a field to a column. The bounds of columns, here and below, are far above what an input can give and far below what 32 bits hold, so that no sum wraps.
// Domains are counted in 16 bits: a place that is narrowed to a domain costs four instructions a field more, and a test before `+= 1` seven times the time.
fn add_field(column: &mut [u32; 17], field: u16)
    requires { Column 4000000000 column.old }
    ensures { column.new ≡ added column.old (field ∷ []) }
{
    for s in 0..16u16 {
        column[s as usize] += u32::from(holds_domain(field, s));
    }
    column[16] += domain_count(field);
}

// Adds the fields of a right, by its number as `place_of` has it, to so many pages of an image, as its bytes have them: from byte 22 on, two fields of two bytes for each page (RULES 5.5).
fn add_fields(column: &mut [u32; 17], bytes: &[u8], right: u16, pages: u8)
    requires { (right ≤ 1) × Column 1000000 column.old }
    ensures { column.new ≡ added column.old (entries 1 (λ page. field_at bytes.now (22 + 2 * place_of right page)) 0 pages) }
{
    for page in 0..u16::from(pages) {
        add_field(column, field_at(bytes, 22 + 2 * (2 * page + right)));
    }
}

// The image that stands first in what is left of an input, and what is left behind it; none where nothing is left, or an image that is cut. The test
// programs read their lists so too, by contracts of a length alone: this one names the definitions `IsSplit` and `IsCut`.
fn first_image(left: &[u8]) -> Option<(&[u8], &[u8])>
    ensures { MatchOption result (IsCut left.now) (λ split. IsSplit left.now split.0.now split.1.now) }
{
    match left {
        [high, low, behind @ ..] => behind.split_at_checked(usize::from(word_of(*high, *low))),
        _ => None,
    }
}

impl Sums {
    // Adds an image: the fields of one that loads to both columns, any other to those refused. No machine is made for that: the load's number and
    // the page count at byte 18 (RULES 5.4) are enough, and the fields of the machine are those of the bytes (`loaded_fields`).
    fn add_image(&mut self, bytes: &[u8])
        requires { Within 1000000 self.old }
        ensures { self.new ≡ with_images self.old (Whole bytes.now ∷ []) }
    {
        if check_load(bytes).is_err() {
            self.refused += 1;
            return;
        }
        let pages = byte_at(bytes, 18);
        add_fields(&mut self.reads, bytes, 0, pages);
        add_fields(&mut self.writes, bytes, 1, pages);
    }

    // Adds all images of an input. An image that is cut is the last one.
    fn add_images(&mut self, input: &[u8])
        requires { (length input.now ≤ 32768) × Within 0 self.old }
        ensures { self.new ≡ with_images self.old (images_of input.now) }
    {
        let mut left = input;
        while let Some((image, rest)) = first_image(left) {
            self.add_image(image);
            left = rest;
        }
        self.refused += u32::from(!left.is_empty());
    }
}

// The rights over the images of an input; nothing is counted of one that is too long.
pub fn count_rights(input: &[u8]) -> Option<Sums>
    ensures { counted_as result ≡ counted_of input.now }
{
    if 32768 < input.len() {
        return None;
    }
    let mut sums = Sums {
        reads: [0; 17],
        writes: [0; 17],
        refused: 0,
    };
    sums.add_images(input);
    Some(sums)
}
