//! Signatures that are checked, as they are and damaged.

use crate::line::Line;
use crate::text::Text;
use hss_keys::Hss;
use ivy_base::PubKey;
use lms_core::LmsFault;

/// What is said of a signature; `None` where there is no key.
type Answer = Option<Result<(), LmsFault>>;

/// How often each answer came.
#[derive(Clone, Copy)]
struct Tally {
    good: u64,
    unsupported: u64,
    malformed: u64,
    wrong: u64,
}

impl Tally {
    fn new() -> Tally {
        Tally {
            good: 0,
            unsupported: 0,
            malformed: 0,
            wrong: 0,
        }
    }

    fn count(&mut self, answer: Answer) {
        match answer {
            Some(Ok(())) => self.good = self.good.saturating_add(1),
            Some(Err(LmsFault::Unsupported)) => {
                self.unsupported = self.unsupported.saturating_add(1);
            }
            Some(Err(LmsFault::Malformed)) => self.malformed = self.malformed.saturating_add(1),
            Some(Err(LmsFault::Wrong)) => self.wrong = self.wrong.saturating_add(1),
            None => {}
        }
    }

    fn put(&self, out: &mut Text) {
        out.count("good ", self.good);
        out.count(" unsupported ", self.unsupported);
        out.count(" malformed ", self.malformed);
        out.count(" wrong ", self.wrong);
    }
}

/// Whose public key it is.
#[derive(Clone, Copy)]
pub enum Form {
    /// One tree's.
    Tree,
    /// That of a key of one to three levels.
    Key,
}

/// What is asked about.
struct Case {
    /// Whose public key it is.
    form: Form,
    public: Vec<u8>,
    message: Vec<u8>,
    signature: Vec<u8>,
}

impl Drop for Case {
    fn drop(self) {
        let Case {
            form: _,
            public: _,
            message: _,
            signature: _,
        } = self;
    }
}

/// The answer about a signature by a key of one to three levels, whose public key has 60 bytes.
fn verify_key(public: &[u8], message: &[u8], signature: &[u8]) -> Answer {
    match public.first_chunk::<60>() {
        Some(owner) if public.len() == 60 => Some(Hss::verify(&PubKey(*owner), message, signature)),
        _ => None,
    }
}

/// The answer about a signature.
fn verify(form: Form, public: &[u8], message: &[u8], signature: &[u8]) -> Answer {
    match form {
        Form::Tree => Some(lms_core::verify(public, message, signature)),
        Form::Key => verify_key(public, message, signature),
    }
}

/// Adds an answer.
fn put_answer(out: &mut Text, answer: Answer) {
    match answer {
        Some(Ok(())) => out.add("good"),
        Some(Err(LmsFault::Unsupported)) => out.add("unsupported"),
        Some(Err(LmsFault::Malformed)) => out.add("malformed"),
        Some(Err(LmsFault::Wrong)) => out.add("wrong"),
        None => out.lack(),
    }
}

impl Case {
    fn answer(&self) -> Answer {
        verify(self.form, &self.public, &self.message, &self.signature)
    }

    /// Counts the answers where one bit of one byte of the signature is turned.
    fn count_turns(&mut self, tally: &mut Tally, bit: u8) {
        for place in 0..self.signature.len() {
            self.signature[place] ^= bit;
            tally.count(self.answer());
            self.signature[place] ^= bit;
        }
    }

    /// Adds how often each answer comes where one bit of the signature is turned.
    fn put_flipped(&mut self, out: &mut Text) {
        let mut tally = Tally::new();
        for shift in 0..8_u32 {
            self.count_turns(&mut tally, 1 << shift);
        }
        tally.put(out);
    }

    /// Adds how often each answer comes where the lowest bit of one byte of the signature is turned.
    fn put_turned(&mut self, out: &mut Text) {
        let mut tally = Tally::new();
        self.count_turns(&mut tally, 1);
        tally.put(out);
    }

    /// Counts the answers where the signature or the key is cut.
    fn count_cuts(&self, tally: &mut Tally) {
        for len in 0..self.signature.len() {
            tally.count(verify(
                self.form,
                &self.public,
                &self.message,
                &self.signature[..len],
            ));
        }
        for len in 0..self.public.len() {
            tally.count(verify(
                self.form,
                &self.public[..len],
                &self.message,
                &self.signature,
            ));
        }
    }

    /// Adds how often each answer comes where the signature or the key is cut, or has a zero byte more.
    fn put_cut(&mut self, out: &mut Text) {
        let mut tally = Tally::new();
        self.count_cuts(&mut tally);
        out.push(&mut self.signature, 0);
        tally.count(self.answer());
        self.signature.pop();
        out.push(&mut self.public, 0);
        tally.count(self.answer());
        tally.put(out);
    }

    /// Adds the answer to a question about it.
    fn put(&mut self, out: &mut Text, question: &str) {
        match question {
            "verify" => put_answer(out, self.answer()),
            "flips" => self.put_flipped(out),
            "turns" => self.put_turned(out),
            "cuts" => self.put_cut(out),
            _ => out.lack(),
        }
    }
}

/// Tells the answer to a question about a public key, a message and a signature.
pub fn check(line: &mut Line<'_>, form: Form, question: &str) {
    let mut case = Case {
        form,
        public: line.bytes(),
        message: line.bytes(),
        signature: line.bytes(),
    };
    case.put(&mut line.text, question);
}
