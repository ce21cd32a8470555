use crate::told::Told;
use std::alloc::Global;

/// What answers lines.
pub trait Answering: Drop {
    /// Puts what a line is answered.
    fn answer(&mut self, line: &str, told: &mut Told);
}

/// One that is asked many lines, for their answers in words. It knows nothing of trees, so that what is proved of it doesn't either.
#[derive(Drop)]
pub struct Bench<A: Answering> {
    answering: A,
    line: Told,
    /// These stand in lines that are asked in the place of each `$`.
    pub words: Told,
    /// What the last lines were answered.
    pub told: Told,
    /// What they should be answered.
    pub wanted: Told,
}

impl<A: Answering> Bench<A> {
    /// One that hasn't been asked yet, who has this one's answers.
    pub fn new(alloc: Global, answering: A) -> Bench<A> {
        Bench {
            answering,
            line: Told::new(alloc),
            words: Told::new(alloc),
            told: Told::new(alloc),
            wanted: Told::new(alloc),
        }
    }

    /// Whether memory was refused: then words may have been missing.
    pub fn is_out(&self) -> bool {
        self.line.is_out() || self.words.is_out() || self.told.is_out() || self.wanted.is_out()
    }

    /// Asks lines, with semicolons between them; so stand their answers.
    pub fn ask(&mut self, lines: &str) {
        self.told.set("");
        for line in lines.split(';') {
            self.line.fill(line, self.words.as_str());
            if !self.told.as_str().is_empty() {
                self.told.put("; ");
            }
            self.answering.answer(self.line.as_str(), &mut self.told);
        }
    }

    /// Whether lines are answered as is wanted.
    pub fn goes(&mut self, lines: &str) -> bool {
        self.ask(lines);
        self.told.as_str() == self.wanted.as_str()
    }

    /// Whether they are answered so.
    pub fn is_so(&mut self, lines: &str, wanted: &str) -> bool {
        self.wanted.set(wanted);
        self.goes(lines)
    }
}
