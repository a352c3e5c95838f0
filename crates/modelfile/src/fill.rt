//! The second pass over a file, which the first found right: the tables are filled.
ghost use Rattle.std.specs.Prelude.{◌≡◌, ℕ, ◌+◌, ◌≤◌, List, length};
ghost use Rattle.std.specs.List.{flat_map};
ghost use Rattle.models.specs.declared.facts.Facts.{Facts as Label};
ghost use Rattle.codec.specs.Numbers.{counted};
ghost use Rattle.codec.specs.Pieces.{placed};
ghost use Rattle.codec.specs.Reading.{Stands};
ghost use Rattle.modelfile.specs.Files.{bits_of, offsets_of, targets_of};
ghost use Rattle.modelfile.specs.Fills.{Sequence, RowFits, RowsFit};

use crate::scan::ONE_BYTE;
use codec::numbers::known_number;
use models::facts::Facts;

// Takes the number of `file` that begins at `at`: the file was read before.
fn number(file: &[u8], at: &mut usize) -> u64
    ensures { (n next : ℕ) → Stands file.now at.old n next → (n ≡ result) × (next ≡ at.new) }
{
    let (number, next) = known_number(file, *at);
    *at = next;
    number
}

// Fills the labels with the next numbers.
pub(crate) fn fill_labels(file: &[u8], at: &mut usize, labels: &mut [Facts])
    ensures { (ls : List Label) (next : ℕ) → length ls ≡ length labels.old → Sequence file.now at.old (bits_of ls) next → (at.new ≡ next) × (labels.new ≡ ls) }
{
    for label in labels.iter_mut() {
        *label = Facts {
            bits: number(file, at),
        };
    }
}

// Fills a row with as many bytes.
fn copy_row(bytes: &[u8], row: &mut [u16])
    requires { length bytes.now ≡ length row.old }
    ensures { row.new ≡ bytes.now }
{
    // Kept: behind a zip with the bytes nothing would be known of what is written.
    for (k, target) in row.iter_mut().enumerate() {
        *target = bytes[k] as u16;
    }
}

// Fills a row with the next numbers.
fn read_row(file: &[u8], at: &mut usize, row: &mut [u16])
    requires { RowFits file.now at.old (length row.old) 4096 }
    ensures { (ts : List ℕ) (next : ℕ) → length ts ≡ length row.old → Sequence file.now at.old ts next → (at.new ≡ next) × (row.new ≡ ts) }
{
    for target in row.iter_mut() {
        *target = number(file, at) as u16;
    }
}

// Fills a row with the next numbers, which are below `states`.
fn fill_row(file: &[u8], at: &mut usize, row: &mut [u16], states: usize)
    requires { RowFits file.now at.old (length row.old) states }
    ensures { (ts : List ℕ) (next : ℕ) → length ts ≡ length row.old → Sequence file.now at.old ts next → (at.new ≡ next) × (row.new ≡ ts) }
{
    if states > ONE_BYTE as usize {
        return read_row(file, at, row);
    }
    let end = *at + row.len();
    copy_row(&file[*at..end], row);
    *at = end;
}

// Fills the offsets and the front of the targets with the next rows.
pub(crate) fn fill_rows(file: &[u8], at: &mut usize, offsets: &mut [u32], targets: &mut [u16])
    requires { RowsFit file.now at.old (length offsets.old) (length targets.old) }
    ensures { (rows : List (List ℕ)) (next : ℕ) → length rows + 1 ≡ length offsets.old → Sequence file.now at.old (flat_map counted rows) next → (offsets.new ≡ offsets_of rows) × (targets.new ≡ placed targets.old 0 (targets_of rows)) }
{
    let states = offsets.len() - 1;
    let mut end = 0;
    offsets[0] = 0;
    for offset in offsets[1..].iter_mut() {
        let begin = end;
        end += number(file, at) as usize;
        fill_row(file, at, &mut targets[begin..end], states);
        *offset = end as u32;
    }
}
