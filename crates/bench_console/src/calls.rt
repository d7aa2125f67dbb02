// The calls of a script, read from their lines.
use crate::faults::Fault;
use crate::making;
use cipher::key::Key;
use cipher::nonce::BoxNonce;
use digest::force_word::ForceWord;
use digest::note::Note;
use runs::list::Either;
use runs::script::{Call, Step};
use std::alloc::Global;

// the lists that a digest can be fed
pub(crate) type Lists = Either<Vec<ForceWord>, Vec<Note>>;

// The calls that have been read.
#[derive(Drop)]
pub(crate) struct Calls {
    heap: Global,
    pub(crate) steps: Vec<Step<Lists>>,
    // the steps that issue, so that the nth is found without a search through all
    issues: Vec<usize>,
}

impl Calls {
    pub(crate) fn new(heap: Global) -> Calls {
        Calls {
            heap,
            steps: Vec::new(heap),
            issues: Vec::new(heap),
        }
    }

    // Takes the call of a line's words as the next step.
    pub(crate) fn add(&mut self, words: &[&[u8]]) -> Result<(), Fault> {
        let call = self.read(words)?;
        if matches!(call, Call::Issue) {
            self.issues.push(self.steps.len())?;
        }
        self.steps.push(Step::new(call))?;
        Ok(())
    }

    fn read(&self, words: &[&[u8]]) -> Result<Call<Lists>, Fault> {
        match words {
            [b"issue"] => Ok(Call::Issue),
            [b"start", b"sealing", key, issue] => self.start_sealing(key, issue),
            [b"start", b"opening", key, nonce] => self.start_opening(key, nonce),
            [b"add", piece] => Ok(Call::Add {
                piece: self.string(piece)?,
            }),
            [b"close"] => Ok(Call::Close),
            [b"write", piece, room] => Ok(Call::Write {
                piece: self.string(piece)?,
                buffer: self.buffer(room)?,
            }),
            [b"finish"] => Ok(Call::Finish),
            [b"open", sealed, room] => Ok(Call::Open {
                sealed: self.string(sealed)?,
                buffer: self.buffer(room)?,
            }),
            [b"begin", b"digest"] => Ok(Call::BeginDigest),
            [b"feed", b"forces", forces @ ..] => Ok(Call::FeedList {
                list: Either::Left(making::forces(self.heap, forces)?),
            }),
            [b"feed", b"notes", notes @ ..] => Ok(Call::FeedList {
                list: Either::Right(making::notes(self.heap, notes)?),
            }),
            [b"feed", piece] => Ok(Call::Feed {
                piece: self.string(piece)?,
            }),
            [b"end", b"feeding"] => Ok(Call::EndFeeding),
            [b"draw", length] => Ok(Call::Draw {
                buffer: self.buffer(length)?,
            }),
            [b"release"] => Ok(Call::Release),
            _ => Err(Fault::NotUnderstood),
        }
    }

    // A key of another length is refused only if the number of the issue can be read.
    fn start_sealing(&self, key: &[u8], issue: &[u8]) -> Result<Call<Lists>, Fault> {
        let key = self.string(key)?;
        let issue = self.issue_step(making::number(issue)?);
        Ok(Call::StartSealing {
            key: Key::new(key.as_slice())?,
            issue,
        })
    }

    // A key of another length is refused only if the nonce can be read.
    fn start_opening(&self, key: &[u8], nonce: &[u8]) -> Result<Call<Lists>, Fault> {
        let key = self.string(key)?;
        let nonce = self.string(nonce)?;
        Ok(Call::StartOpening {
            key: Key::new(key.as_slice())?,
            nonce: BoxNonce::new(nonce.as_slice())?,
        })
    }

    // The step that the issue of this number is, counted from 1. An issue that has not come yet is no earlier step than
    // the call itself, so that the run does not let the call stand.
    fn issue_step(&self, number: usize) -> usize {
        let step = number
            .checked_sub(1)
            .and_then(|earlier| self.issues.get(earlier));
        step.copied().unwrap_or(self.steps.len())
    }

    fn string(&self, word: &[u8]) -> Result<Vec<u8>, Fault> {
        making::string(self.heap, word)
    }

    fn buffer(&self, word: &[u8]) -> Result<Vec<u8>, Fault> {
        making::buffer(self.heap, word)
    }
}
