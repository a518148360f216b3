// The cases of the data, one after the other: each has a file, the lengths of the lists to lend, and the right answer.
use crate::problem::Problem;
use file_blocks::blocks::TOO_LONG_FILE;
use std::alloc::{AllocError, Global};
use std::fmt;

// No case lends more than room for 5,461 actions and for twice the temporaries that a section can have.
const ACTIONS: usize = 131072;

const TEMPORARIES: usize = 1024;

// What the lists hold before the call must not matter.
const FILLER: u64 = 0xa5a5a5a5a5a5a5a5;

// Where an answer is another one than the right one.
#[derive(Clone, Copy)]
pub(crate) enum Difference {
    Result(usize),
    Action(usize),
    Temporary(usize),
}

impl fmt::Display for Difference {
    fn fmt<W: fmt::Write>(&self, f: &mut fmt::Formatter<W>) -> fmt::Result {
        match self {
            Difference::Result(index) => write!(f, "result {index}"),
            Difference::Action(index) => write!(f, "action word {index}"),
            Difference::Temporary(index) => write!(f, "temporary word {index}"),
        }
    }
}

// A case: its file, the lengths of the lists to lend, and what the answer and the lists are to be.
#[derive(Drop)]
pub(crate) struct Case<'a> {
    file: Vec<u8>,
    lent_actions: usize,
    lent_temporaries: usize,
    result: Words<'a>,
    actions: Words<'a>,
    temporaries: Words<'a>,
}

// So many words at the start of what is left of the data. They are read where they are compared: a list of them would be as
// long as the lent one.
#[derive(Clone, Copy)]
struct Words<'a> {
    data: Cases<'a>,
    count: usize,
}

impl Words<'_> {
    // The next word; behind the last all are to be 0.
    fn next(&mut self) -> u64 {
        if self.count == 0 {
            return 0;
        }
        self.count -= 1;
        self.data.word().unwrap_or(0)
    }
}

// The first word that is not the right one.
fn first_wrong(words: &[u64], mut right: Words<'_>) -> Option<usize> {
    words.iter().position(|word| *word != right.next())
}

impl Case<'_> {
    pub(crate) fn refusal(&self) -> u64 {
        let mut result = self.result;
        result.next()
    }

    // The first difference between the answer to the case and the right one.
    pub(crate) fn difference(&self, alloc: Global) -> Result<Option<Difference>, AllocError> {
        let mut actions = vec![in alloc; FILLER; self.lent_actions]?;
        let mut temporaries = vec![in alloc; FILLER; self.lent_temporaries]?;
        let mut result = [0u64; 12];
        mizgalon::mizgalon_resolve(&self.file, &mut actions, &mut temporaries, &mut result);
        if let Some(index) = first_wrong(&result, self.result) {
            return Ok(Some(Difference::Result(index)));
        }
        if let Some(index) = first_wrong(&actions, self.actions) {
            return Ok(Some(Difference::Action(index)));
        }
        Ok(first_wrong(&temporaries, self.temporaries).map(Difference::Temporary))
    }
}

// The cases that are left of the data, from the one with that number on.
#[derive(Clone, Copy)]
pub(crate) struct Cases<'a> {
    left: &'a [u8],
    next: u64,
}

impl<'a> Cases<'a> {
    // The cases of the data, and how many it says there are. Data that ends before that has none in it.
    pub(crate) fn new(data: &'a [u8]) -> (u64, Cases<'a>) {
        let left = data.get(4..).unwrap_or(data);
        (access::u32_at(data, 0), Cases { left, next: 0 })
    }

    // Nothing may follow the last case.
    pub(crate) fn end(&self) -> Result<(), Problem> {
        if self.left.is_empty() {
            return Ok(());
        }
        Err(Problem::GoesOn)
    }

    fn ill_formed(&self) -> Problem {
        Problem::IllFormed(self.next)
    }

    fn bytes(&mut self, count: usize) -> Result<&'a [u8], Problem> {
        let Some((bytes, left)) = self.left.split_at_checked(count) else {
            return Err(self.ill_formed());
        };
        self.left = left;
        Ok(bytes)
    }

    // A number of four bytes, up to a limit.
    fn number(&mut self, limit: usize) -> Result<usize, Problem> {
        let number = access::u32_at(self.bytes(4)?, 0) as usize;
        if number > limit {
            return Err(self.ill_formed());
        }
        Ok(number)
    }

    // A word of 0 to 8 bytes after the byte that says how many.
    fn word(&mut self) -> Result<u64, Problem> {
        let length = access::byte(self.bytes(1)?, 0, 0) as usize;
        if length > 8 {
            return Err(self.ill_formed());
        }
        let mut word = [0u8; 8];
        // No `copy_from_slice`, which asks for slices of one length: that a reading gives as many bytes is promised nowhere.
        for (to, byte) in word.iter_mut().zip(self.bytes(length)?) {
            *to = *byte;
        }
        Ok(u64::from_le_bytes(word))
    }

    fn words(&mut self, count: usize) -> Result<Words<'a>, Problem> {
        let words = Words { data: *self, count };
        for _ in 0..count {
            self.word()?;
        }
        Ok(words)
    }

    // The words of a list behind their number, which is no greater than the length of the lent list.
    fn list(&mut self, lent: usize) -> Result<Words<'a>, Problem> {
        let count = self.number(lent)?;
        self.words(count)
    }

    // A file of that length: what stands ahead of its zeros, the zeros, and its last two bytes; none if it has fewer than two.
    fn file(&mut self, alloc: Global, length: usize, body: usize) -> Result<Vec<u8>, Problem> {
        let body = self.bytes(body)?;
        let last = self.bytes(if length < 2 { 0 } else { 2 })?;
        let before_last = length.saturating_sub(last.len());
        if body.len() > before_last {
            return Err(self.ill_formed());
        }
        let mut file = body.to_vec(alloc)?;
        file.resize(before_last, 0)?;
        file.extend_from_slice(last)?;
        Ok(file)
    }

    // The next case. No case has a longer file than the longest and a byte more.
    pub(crate) fn case(&mut self, alloc: Global) -> Result<Case<'a>, Problem> {
        let length = self.number(TOO_LONG_FILE)?;
        let body = self.number(TOO_LONG_FILE)?;
        let lent_actions = self.number(ACTIONS)?;
        let lent_temporaries = self.number(TEMPORARIES)?;
        let case = Case {
            file: self.file(alloc, length, body)?,
            lent_actions,
            lent_temporaries,
            result: self.words(12)?,
            actions: self.list(lent_actions)?,
            temporaries: self.list(lent_temporaries)?,
        };
        self.next = self.next.saturating_add(1);
        Ok(case)
    }
}
