//! Set files: a set as 32-bit little-endian words, read and written.
#![tactic(auto)]

ghost use Rattle.std.specs.Prelude.{◌≡◌, ℕ, ◌+◌, ◌*◌, ◌<◌, ◌≤◌, List, ◌++◌, length, Ok, MatchResult, slice_index};
ghost use Rattle.std.specs.List.{flat_map};
ghost use Rattle.refusal.specs.Refusals.{Answers};
ghost use Rattle.set.specs.declared.sets.Set.{Set};
ghost use Rattle.set.specs.Sets.{models_of, MadeOf};
ghost use Rattle.setfile.specs.Format.{file_of, word_at, word_bytes};
ghost use Rattle.setfile.specs.Reading.{Reads, Wrote, about_writing, size_for};

use refusal::{Fault, Layer, Refusal};
use set::figures::Figures;
use set::sets::Set;
use set::sizes::{MODELS, Sizes};

/// The bytes of the four sizes at the head of a file.
const HEADER: usize = 16;

/// The bytes of the longest file, which has the most models.
pub const MOST_BYTES: usize = HEADER + 8 * MODELS;

/// The set of a file. The file of a set reads as that set, and no other file does.
/// More than `MOST_BYTES` bytes are refused, by the first 16 of them alone, so whatever stands behind need not be had.
pub fn read(bytes: &[u8]) -> Result<Set, Refusal>
    ensures reads { Reads bytes.now result }
    ensures back { (s : Set) → bytes.now ≡ file_of s → result ≡ Ok s }
    ensures longer { (more : List ℕ) → 528 < length bytes.now → Reads (bytes.now ++ more) result }
    ensures one { (s : Set) (other : List ℕ) → result ≡ Ok s → Reads other (Ok s) → other ≡ bytes.now }
{
    if bytes.len() < HEADER {
        return Err(Fault::Short.at(Layer::File, bytes.len() as u64));
    }
    let [models, workers, group_size, grain] = words::<4>(bytes);
    let sizes = Sizes::new(models as u64, workers, group_size, grain)?;
    let count = sizes.models as usize;
    let size = file_size(count);
    if bytes.len() < size {
        return Err(Fault::Short.at(Layer::File, bytes.len() as u64));
    }
    if bytes.len() > size {
        return Err(Fault::Long.at(Layer::File, size as u64));
    }
    // the tables have room for the most models: nothing allocates
    let costs = words::<MODELS>(&bytes[HEADER..HEADER + 4 * count]);
    let periods = words::<MODELS>(&bytes[HEADER + 4 * count..]);
    let figures = Figures {
        workers: sizes.workers,
        group_size: sizes.group_size,
        grain: sizes.grain,
        costs: &costs[..count],
        periods: &periods[..count],
    };
    figures.check()
}

/// Writes the file of the set that the figures make, and answers how many bytes it has. A refusal leaves the buffer.
pub fn write(figures: &Figures, buffer: &mut [u8]) -> Result<usize, Refusal>
    ensures answers { Answers (about_writing figures.now (length buffer.old)) result (λ n. n ≡ size_for (length figures.now.costs.now)) }
    ensures written { MatchResult result (λ n. Wrote figures.now n buffer.old buffer.new) (λ _. buffer.new ≡ buffer.old) }
{
    let set = figures.check()?;
    let count = figures.costs.len();
    let size = file_size(count);
    if buffer.len() < size {
        return Err(Fault::Short.at(Layer::File, buffer.len() as u64));
    }
    put_file(&set, figures, &mut buffer[..size]);
    Ok(size)
}

/// Fills the place with the file of the set that these figures make.
fn put_file(set: &Set, figures: &Figures, place: &mut [u8])
    requires made { MadeOf figures.now set.now }
    requires level { length figures.now.costs.now ≡ length figures.now.periods.now }
    requires room { length place.old ≡ size_for (models_of set.now) }
    ensures { place.new ≡ file_of set.now }
{
    let Sizes {
        models,
        workers,
        group_size,
        grain,
    } = set.sizes;
    let sizes = [models, workers, group_size, grain].map(u32::to_le_bytes);
    let (header, rows) = place.split_at_mut(HEADER);
    let (cost_row, period_row) = rows.split_at_mut(4 * figures.costs.len());
    header.copy_from_slice(sizes.as_flattened());
    put_words(figures.costs, cost_row);
    put_words(figures.periods, period_row);
}

/// Fills the place with these words.
fn put_words(words: &[u32], place: &mut [u8])
    requires { length place.old ≡ 4 * length words.now }
    ensures { place.new ≡ flat_map word_bytes words.now }
{
    for (i, word) in words.iter().enumerate() {
        place[4 * i..4 * i + 4].copy_from_slice(&word.to_le_bytes());
    }
}

/// The bytes of a file with this many models.
fn file_size(models: usize) -> usize
    requires { models ≤ 64 }
    ensures { result ≡ size_for models }
{
    HEADER + 8 * models
}

/// The first N words of the bytes, as far as there are so many.
fn words<const N: usize>(bytes: &[u8]) -> [u32; N]
    ensures { (i : ℕ) → i < N → 4 * i + 4 ≤ length bytes.now → slice_index result i ≡ word_at bytes.now (4 * i) }
{
    let (chunks, _) = bytes.as_chunks::<4>();
    let mut words = [0; N];
    for (i, chunk) in chunks[..chunks.len().min(N)].iter().enumerate() {
        words[i] = u32::from_le_bytes(*chunk);
    }
    words
}
