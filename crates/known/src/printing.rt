//! Lists of numbers and of pairs, groups of entries, and answers, as the lines have them.
use access::front;
use checks::Refusal;
use std::fmt;

/// Numbers with commas between them.
#[derive(Clone, Copy)]
pub struct Numbers<'a>(pub &'a [u16]);

impl fmt::Display for Numbers<'_> {
    fn fmt<W: fmt::Write>(&self, f: &mut fmt::Formatter<W>) -> fmt::Result {
        for (i, number) in self.0.iter().enumerate() {
            let comma = if i == 0 { "" } else { "," };
            write!(f, "{comma}{number}")?;
        }
        Ok(())
    }
}

/// Pairs with commas between them, each as the listing has it: the end, a colon, the count.
#[derive(Clone, Copy)]
pub struct Pairs<'a>(pub &'a [u16]);

impl fmt::Display for Pairs<'_> {
    fn fmt<W: fmt::Write>(&self, f: &mut fmt::Formatter<W>) -> fmt::Result {
        for (i, pair) in self.0.chunks_exact(2).enumerate() {
            let comma = if i == 0 { "" } else { "," };
            if let [end, count] = pair {
                write!(f, "{comma}{end}:{count}")?;
            }
        }
        Ok(())
    }
}

/// Groups of so many entries, each in brackets: breaks, or repetitions.
#[derive(Clone, Copy)]
pub struct Groups<'a> {
    pub size: usize,
    pub entries: &'a [u16],
}

impl fmt::Display for Groups<'_> {
    fn fmt<W: fmt::Write>(&self, f: &mut fmt::Formatter<W>) -> fmt::Result {
        for group in self.entries.chunks_exact(self.size.max(1)) {
            write!(f, "({})", Numbers(group))?;
        }
        Ok(())
    }
}

/// A refusal, by its number.
#[derive(Clone, Copy)]
pub struct Refused(pub Refusal);

impl fmt::Display for Refused {
    fn fmt<W: fmt::Write>(&self, f: &mut fmt::Formatter<W>) -> fmt::Result {
        write!(f, "refusal {}", u8::from(self.0))
    }
}

/// What a call answers: what is shown of its result, or the refusal.
#[derive(Drop)]
pub struct Answer<D>(pub Result<D, Refusal>);

impl<D: fmt::Display> fmt::Display for Answer<D> {
    fn fmt<W: fmt::Write>(&self, f: &mut fmt::Formatter<W>) -> fmt::Result {
        match &self.0 {
            Ok(result) => write!(f, "{result}"),
            Err(refusal) => write!(f, "{}", Refused(*refusal)),
        }
    }
}

/// A call's list: so many entries as it answers.
pub fn numbers_of(answer: Result<usize, Refusal>, list: &[u16]) -> Answer<Numbers<'_>> {
    Answer(answer.map(|count| Numbers(front(list, count))))
}

/// The piece cut's list: so many pairs as it answers.
pub fn pieces_of(answer: Result<usize, Refusal>, pairs: &[u16]) -> Answer<Pairs<'_>> {
    Answer(answer.map(|count| Pairs(front(pairs, count.saturating_mul(2)))))
}
