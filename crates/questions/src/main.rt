//! Answers questions to lattices of every kind, one to a line: `LATTICE sign`, `LATTICE below A B` and their like.
//! `T:11/01` is the table with these lines.
#![tactic(auto)]

use clearance::read_table;
use lattice::{Chain, Lattice, Level, Pair, Reversed, Sets, pair_count};
use refusal::Refusal;
use std::alloc::{AllocError, Global};
use std::{fmt, io};

/// A question, with its levels.
#[derive(Clone, Copy)]
enum Question {
    Sign,
    Count,
    Below(Level, Level),
    Join(Level, Level),
    Meet(Level, Level),
    Lowest,
    Highest,
    Product,
}

/// An answer, as it is printed.
#[derive(Clone, Copy)]
enum Answer {
    Sign(char),
    Number(u32),
    Test(bool),
}

impl fmt::Display for Answer {
    fn fmt<W: fmt::Write>(&self, f: &mut fmt::Formatter<W>) -> fmt::Result {
        match *self {
            Answer::Sign(letter) => write!(f, "{letter}"),
            Answer::Number(n) => write!(f, "{n}"),
            Answer::Test(true) => write!(f, "yes"),
            Answer::Test(false) => write!(f, "no"),
        }
    }
}

/// Why there is no answer, as it is printed.
#[derive(Clone, Copy)]
enum Failure {
    Refused(Refusal),
    Unknown,
}

impl From<Refusal> for Failure {
    fn from(refusal: Refusal) -> Failure {
        Failure::Refused(refusal)
    }
}

impl fmt::Display for Failure {
    fn fmt<W: fmt::Write>(&self, f: &mut fmt::Formatter<W>) -> fmt::Result {
        match *self {
            Failure::Refused(refusal) => write!(f, "{refusal}"),
            Failure::Unknown => write!(f, "unknown"),
        }
    }
}

fn question_of(line: &str) -> Option<Question> {
    let mut words = line.split_whitespace();
    let _lattice = words.next();
    let name = words.next()?;
    let mut level = || words.next()?.parse::<u32>().ok();
    Some(match name {
        "sign" => Question::Sign,
        "count" => Question::Count,
        "below" => Question::Below(level()?, level()?),
        "join" => Question::Join(level()?, level()?),
        "meet" => Question::Meet(level()?, level()?),
        "lowest" => Question::Lowest,
        "highest" => Question::Highest,
        "product" => Question::Product,
        _ => return None,
    })
}

fn ask<L: Lattice>(lattice: &L, question: Question) -> Result<Answer, Failure> {
    Ok(match question {
        Question::Sign => Answer::Sign(L::SIGN),
        Question::Count => Answer::Number(lattice.count()),
        Question::Below(a, b) => Answer::Test(lattice.is_below(a, b)),
        Question::Join(a, b) => Answer::Number(lattice.join(a, b)),
        Question::Meet(a, b) => Answer::Number(lattice.meet(a, b)),
        Question::Lowest => Answer::Number(lattice.lowest()),
        Question::Highest => Answer::Number(lattice.highest()),
        // Only a pair has one.
        Question::Product => return Err(Failure::Unknown),
    })
}

const PENTAGON: &[u8] = b"11111\n01011\n00101\n00011\n00001\n";

// The lattices of one kind.
fn ask_simple(name: &str, question: Question) -> Result<Answer, Failure> {
    match name {
        "C0" => ask(&Chain::new(0)?, question),
        "C1" => ask(&Chain::new(1)?, question),
        "C2" => ask(&Chain::new(2)?, question),
        "C5" => ask(&Chain::new(5)?, question),
        "C65536" => ask(&Chain::new(65_536)?, question),
        "C65537" => ask(&Chain::new(65_537)?, question),
        "S0" => ask(&Sets::new(0)?, question),
        "S3" => ask(&Sets::new(3)?, question),
        "S16" => ask(&Sets::new(16)?, question),
        "S17" => ask(&Sets::new(17)?, question),
        "T5" => ask(&read_table(PENTAGON)?, question),
        _ => Err(Failure::Unknown),
    }
}

fn ask_pair<A: Lattice + Drop, B: Lattice + Drop>(
    first: A,
    second: B,
    question: Question,
) -> Result<Answer, Failure> {
    match question {
        Question::Product => Ok(Answer::Number(pair_count(&first, &second)?)),
        _ => ask(&Pair { first, second }, question),
    }
}

// The pair of two lattices, where both could be made.
fn pair<A: Drop, B: Drop>(
    first: Result<A, Refusal>,
    second: Result<B, Refusal>,
) -> Result<Pair<A, B>, Refusal> {
    let first = first?;
    let second = second?;
    Ok(Pair { first, second })
}

fn ask_pairs(name: &str, question: Question) -> Result<Answer, Failure> {
    match name {
        "P(C2,S2)" => ask_pair(Chain::new(2)?, Sets::new(2)?, question),
        "P(S8,S8)" => ask_pair(Sets::new(8)?, Sets::new(8)?, question),
        "P(C300,C300)" => ask_pair(Chain::new(300)?, Chain::new(300)?, question),
        "P(C65536,C65536)" => ask_pair(Chain::new(65_536)?, Chain::new(65_536)?, question),
        "P(P(C2,C3),S1)" => ask_pair(pair(Chain::new(2), Chain::new(3))?, Sets::new(1)?, question),
        "P(C3,P(C2,S2))" => ask_pair(Chain::new(3)?, pair(Chain::new(2), Sets::new(2))?, question),
        "P(T5,C2)" => ask_pair(read_table(PENTAGON)?, Chain::new(2)?, question),
        "P(R(C5),S2)" => {
            let first = Reversed { of: Chain::new(5)? };
            ask_pair(first, Sets::new(2)?, question)
        }
        _ => Err(Failure::Unknown),
    }
}

fn ask_reversed(name: &str, question: Question) -> Result<Answer, Failure> {
    match name {
        "R(C5)" => ask(&Reversed { of: Chain::new(5)? }, question),
        "R(S3)" => ask(&Reversed { of: Sets::new(3)? }, question),
        "R(T5)" => ask(
            &Reversed {
                of: read_table(PENTAGON)?,
            },
            question,
        ),
        "R(P(C2,S2))" => ask(
            &Reversed {
                of: pair(Chain::new(2), Sets::new(2))?,
            },
            question,
        ),
        "R(P(C300,C300))" => ask(
            &Reversed {
                of: pair(Chain::new(300), Chain::new(300))?,
            },
            question,
        ),
        "R(R(S3))" => {
            let of = Reversed { of: Sets::new(3)? };
            ask(&Reversed { of }, question)
        }
        _ => Err(Failure::Unknown),
    }
}

// The text that a word spells, with `/` for each line end.
fn text_of(heap: Global, word: &str) -> Result<Vec<u8>, AllocError> {
    word.bytes()
        .map(|b| if b == b'/' { b'\n' } else { b })
        .collect(heap)
}

fn ask_table(text: &[u8], question: Question) -> Result<Answer, Failure> {
    ask(&read_table(text)?, question)
}

// A name begins with the sign of its kind.
fn ask_named(name: &str, question: Question) -> Result<Answer, Failure> {
    match name.chars().next() {
        Some('P') => ask_pairs(name, question),
        Some('R') => ask_reversed(name, question),
        _ => ask_simple(name, question),
    }
}

// Two results, since an inner failure is an answer to print and an outer one ends the program.
fn reply(heap: Global, line: &str) -> Result<Result<Answer, Failure>, AllocError> {
    let (Some(question), Some(name)) = (question_of(line), line.split_whitespace().next()) else {
        return Ok(Err(Failure::Unknown));
    };
    Ok(match name.strip_prefix("T:") {
        Some(word) => ask_table(&text_of(heap, word)?, question),
        None => ask_named(name, question),
    })
}

fn main(rt: HostRuntime) -> io::Result<()> {
    for line in rt.lines(rt.alloc()) {
        let line = line?;
        let text = line.as_str();
        match reply(rt.alloc(), text)? {
            Ok(answer) => println!(rt; "{text} {answer}")?,
            Err(failure) => println!(rt; "{text} {failure}")?,
        }
    }
    Ok(())
}
