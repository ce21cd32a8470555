/// A line's first word, and what stands after the space behind it.
pub fn cut(line: &str) -> (&str, &str) {
    line.split_once(' ').unwrap_or((line, ""))
}

/// The words of a line that are still to be read, and whether one of those that were read isn't what it should be.
#[derive(Drop)]
pub struct Words<'a> {
    pub rest: &'a str,
    pub is_wrong: bool,
}

impl<'a> Words<'a> {
    /// Those of a text.
    pub fn new(text: &'a str) -> Words<'a> {
        Words {
            rest: text,
            is_wrong: false,
        }
    }

    /// The next word; none where no word is left.
    pub fn word(&mut self) -> &'a str {
        let (word, rest) = cut(self.rest);
        self.rest = rest;
        word
    }

    /// The number that is the next word.
    pub fn number(&mut self) -> u128 {
        match self.word().parse::<u128>() {
            Ok(number) => number,
            Err(_) => {
                self.is_wrong = true;
                0
            }
        }
    }

    /// The same where it has at most 32 bits.
    pub fn short(&mut self) -> u32 {
        match self.word().parse::<u32>() {
            Ok(number) => number,
            Err(_) => {
                self.is_wrong = true;
                0
            }
        }
    }

    /// The signed number that is the next word.
    pub fn signed(&mut self) -> i64 {
        match self.word().parse::<i64>() {
            Ok(number) => number,
            Err(_) => {
                self.is_wrong = true;
                0
            }
        }
    }

    /// The number behind `fail`, where that is the next word, or else 0.
    pub fn fault(&mut self) -> u64 {
        match self.word() {
            "fail" => u64::from(self.short()),
            _ => 0,
        }
    }
}
