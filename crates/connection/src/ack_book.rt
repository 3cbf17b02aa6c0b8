//! Questions that wait for an acknowledgement (Socket.IO protocol 5, "Acknowledgement").

ghost use Rattle.std.specs.Prelude.{◌≡◌, ℕ, ◌==◌, false, nat_le, length, count_by, [], Some, IfOk, OnOk};
ghost use Rattle.connection.specs.Questions.{Expired, open_questions, question_at};
ghost use Rattle.connection.specs.Line.{book_in};
ghost use Rattle.connection.specs.Book.{LeadsTo, ForEachHistory, Advances, Answers, Asks, HasHistory, IsUnanswered};

use std::alloc::Global;
use std::collections::BTreeMap;
use std::marker::Model;
use terms::Sid;

/// Why a question isn't asked, or an answer isn't taken.
#[derive(Clone, Copy, PartialEq, Eq, Debug)]
pub enum AckError {
    /// An allocation was refused.
    Memory,
    /// No open question has this id: it was never asked, was answered, or ran out.
    UnknownId,
    /// The greatest id was used.
    Spent,
}

/// The greatest acknowledgement id: one has at most fifteen digits.
const LAST_ID: u64 = 999_999_999_999_999;

/// What the asker knows a question by, and the moment at which it runs out.
#[derive(Clone, Copy)]
struct Question {
    tag: u64,
    until: u64,
}

/// The questions to one client that wait for their acknowledgement, by their ids. Each gets the
/// next id and a tag of the asker's, which its answer gives back. Moments are milliseconds of the
/// caller's clock, each taken as it is handed in.
///
/// Contracts see the next id and the open questions, and speak of histories: the first id and the
/// calls that lead to these contents. Every book has such a history.
#[derive(Drop)]
pub struct AckBook {
    next: u64,
    questions: BTreeMap<u64, Question>,
}

impl Model for AckBook {
    ghost use Rattle.connection.specs.BookContents.{Contents};

    ghost Value = { Contents };

    ghost use Rattle.connection.specs.Book.{HasHistory};

    ghost view = { λ b. record { next = b.next; questions = b.questions.entries } };

    ghost invariant = { λ b.
        HasHistory (record { next = b.next; questions = b.questions.entries }) };
}

impl AckBook {
    /// A book with no question, whose first id is this one. It takes no memory.
    pub fn new(alloc: Global, first: u64) -> AckBook
        ensures { LeadsTo first [] result }
    {
        AckBook {
            next: first,
            questions: BTreeMap::new(alloc),
        }
    }

    /// Asks a question that runs out at a moment, and answers its id. Refused, it used no id.
    pub fn ask(&mut self, _alloc: Global, tag: u64, until: u64) -> Result<u64, AckError>
        ensures asks { Asks self.old tag until result self.new }
        ensures asked { IfOk result (λ id. ForEachHistory self.new
            (λ first h. question_at first h id ≡ Some (record { tag = tag; until = until }))) }
    {
        if self.next > LAST_ID {
            return Err(AckError::Spent);
        }
        let id = self.next;
        let Ok(_) = self.questions.insert(id, Question { tag, until }) else {
            return Err(AckError::Memory);
        };
        self.next = id + 1;
        Ok(id)
    }

    /// Takes the answer to a question: gives its tag and forgets its id.
    pub fn answer(&mut self, id: u64) -> Result<u64, AckError>
        ensures answers { Answers self.old id result self.new }
        ensures once { OnOk result (ForEachHistory self.old (λ first h. IsUnanswered h id)) }
    {
        let question = self.questions.remove(&id).ok_or(AckError::UnknownId)?;
        Ok(question.tag)
    }

    /// Forgets each question that has run out at this moment, and counts them.
    pub fn expire(&mut self, now: u64) -> usize
        ensures counts { ForEachHistory self.old (λ first h. result
            ≡ count_by (λ entry. nat_le entry.1.until now) (open_questions first h)) }
        ensures leads { Advances self.old (Expired now) self.new }
    {
        let before = self.questions.len();
        self.questions.retain(|_, question| question.until > now);
        before - self.questions.len()
    }

    /// How many questions are open.
    pub fn len(&self) -> usize
        ensures counts { ForEachHistory self.now
            (λ first h. result ≡ length (open_questions first h)) }
        ensures reached { HasHistory self.now }
    {
        self.questions.len()
    }
}

/// Asks a question of a socket. Its first one makes its book.
pub(crate) fn ask(
    alloc: Global,
    books: &mut BTreeMap<Sid, AckBook>,
    sid: Sid,
    tag: u64,
    until: u64,
) -> Result<u64, AckError>
    ensures own { let old = book_in books.old.entries sid in
        Asks old tag until result (book_in books.new.entries sid) }
    ensures others { (s : ℕ) → sid == s ≡ false
        → book_in books.new.entries s ≡ book_in books.old.entries s }
{
    if let Some(book) = books.get_mut(&sid) {
        return book.ask(alloc, tag, until);
    }
    let mut book = AckBook::new(alloc, 0);
    let id = book.ask(alloc, tag, until)?;
    let Ok(_) = books.insert(sid, book) else {
        return Err(AckError::Memory);
    };
    Ok(id)
}

/// Takes a socket's answer to a question.
pub(crate) fn answer(books: &mut BTreeMap<Sid, AckBook>, sid: Sid, id: u64) -> Result<u64, AckError>
    ensures own { let old = book_in books.old.entries sid in
        Answers old id result (book_in books.new.entries sid) }
    ensures others { (s : ℕ) → sid == s ≡ false
        → book_in books.new.entries s ≡ book_in books.old.entries s }
{
    books.get_mut(&sid).ok_or(AckError::UnknownId)?.answer(id)
}
