//! A number that hangs on answers.
use refusal::Refusal;
use season::Answer;
use standing::Standing;

/// A number that hangs on all that it is told, and on the order.
#[derive(Clone, Copy, Debug, Default)]
pub(crate) struct Checksum(pub(crate) u64);

impl Checksum {
    /// Goes on by some numbers.
    fn add<const N: usize>(&mut self, numbers: [u64; N]) {
        for number in numbers {
            self.0 = self
                .0
                .wrapping_mul(0x9e37_79b9_7f4a_7c15)
                .wrapping_add(number);
        }
    }

    /// Goes on by what an advance answered, and by the words of its sheet.
    /// Each word counts as often as its place says, so that telling a sheet costs little.
    pub(crate) fn add_sheet(&mut self, start: u32, end: u32, first: u32, sheet: &[u64]) {
        let words = sheet
            .iter()
            .enumerate()
            .fold(0, |sum: u64, (i, word): (usize, &u64)| {
                sum.wrapping_add(word.wrapping_mul((i as u64).wrapping_add(1)))
            });
        self.add([
            start as u64,
            end as u64,
            first as u64,
            sheet.len() as u64,
            words,
        ]);
    }

    /// Goes on by an answer, and by what it left in the memory for a sheet.
    pub(crate) fn add_answer(&mut self, answer: Answer, sheet: &[u64]) {
        match answer {
            Answer::Advanced {
                start,
                end,
                first,
                written,
            } => self.add_sheet(start, end, first, sheet.get(..written).unwrap_or(&[])),
            Answer::Withdrew => self.add([0]),
            Answer::Stands(standing) => self.add_standing(standing),
            Answer::Refused(Refusal { fault, place, .. }) => self.add([fault.number(), place]),
        }
    }

    /// Goes on by a standing.
    fn add_standing(&mut self, standing: Standing) {
        let Standing {
            phase,
            date,
            served,
            lag,
        } = standing;
        self.add([
            phase.number() as u64,
            date as u64,
            served,
            lag.cast_unsigned(),
        ]);
    }
}
