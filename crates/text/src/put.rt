// Bytes and numbers, put onto a page one after another.
ghost use Rattle.std.specs.Prelude.{◌≡◌, ◌+◌, ◌++◌, ◌≤◌, length};
ghost use Rattle.text.specs.Decimal.{decimal};
ghost use Rattle.text.specs.Report.{line};

use crate::list::List;

// The bytes of a page: room for every answer, the longest of which, of two routes of 1,000 moves, is below 6,400 bytes.
pub const PAGE: usize = 8192;

// A page, as far as it is written.
// Stays: the room left on it as a clause, since each function needs another number of bytes, which a type would not make plainer.
pub type Page = List<PAGE>;

// Puts bytes onto a page.
pub fn put(page: &mut Page, bytes: &[u8])
    requires { length page.old.items + length bytes.now ≤ 8192 }
    ensures items { page.new.items ≡ page.old.items ++ bytes.now }
    ensures len { length page.new.items ≡ length page.old.items + length bytes.now }
{
    page.extend_from_slice(bytes);
}

// Puts a number in decimal digits: those of its tenth, where there are any, then its last.
#[tactic(auto, using(crate::proofs::Numbers::decimal_small, crate::proofs::Numbers::put_more, crate::proofs::Numbers::longer))]
pub fn put_decimal(page: &mut Page, n: u64)
    requires { length page.old.items + length (decimal n) ≤ 8192 }
    ensures items { page.new.items ≡ page.old.items ++ decimal n }
    ensures len { length page.new.items ≡ length page.old.items + length (decimal n) }
{
    if 10 <= n {
        put_decimal(page, n / 10);
    }
    page.push(b'0' + (n % 10) as u8);
}

// Puts a line: a word and a number.
#[tactic(auto, using(crate::proofs::Numbers::decimal_fits))]
pub fn put_line(page: &mut Page, word: &[u8], n: u64)
    requires { length page.old.items + length word.now + 21 ≤ 8192 }
    ensures items { page.new.items ≡ page.old.items ++ line word.now (decimal n) }
    ensures upper_bound { length page.new.items ≤ length page.old.items + length word.now + 21 }
{
    put(page, word);
    put_decimal(page, n);
    put(page, b"\n");
}
