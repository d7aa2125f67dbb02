// A script: calls with all that they bring, and what each is answered.
ghost use Rattle.std.specs.Prelude.{◌≡◌};
ghost use Rattle.runs.specs.Names.{call_name};
ghost use Rattle.runs.specs.Scripts.{fresh};

use cipher::book::{IssuedNonce, NonceBook};
use cipher::key::Key;
use cipher::nonce::{BoxNonce, NONCE_LEN};
use cipher::sealing::TAG_LEN;
use engine::refusal::Refusal;

#[derive(Drop)]
pub enum Call<L> {
    Issue,
    // with the nonce of the step of that number, counted from 0
    StartSealing { key: Key, issue: usize },
    StartOpening { key: Key, nonce: BoxNonce },
    Add { piece: Vec<u8> },
    Close,
    Write { piece: Vec<u8>, buffer: Vec<u8> },
    Finish,
    Open { sealed: Vec<u8>, buffer: Vec<u8> },
    BeginDigest,
    Feed { piece: Vec<u8> },
    FeedList { list: L },
    EndFeeding,
    Draw { buffer: Vec<u8> },
    Release,
}

impl<L> Call<L> {
    // The words of the call, without what it brings.
    pub fn name(&self) -> &'static str
        ensures { result.now ≡ call_name self.now }
    {
        match self {
            Call::Issue => "issue",
            Call::StartSealing { .. } => "start sealing",
            Call::StartOpening { .. } => "start opening",
            Call::Add { .. } => "add",
            Call::Close => "close",
            Call::Write { .. } => "write",
            Call::Finish => "finish",
            Call::Open { .. } => "open",
            Call::BeginDigest => "begin digest",
            Call::Feed { .. } | Call::FeedList { .. } => "feed",
            Call::EndFeeding => "end feeding",
            Call::Draw { .. } => "draw",
            Call::Release => "release",
        }
    }
}

#[derive(Clone, Copy)]
pub enum Reply {
    NotRun,
    // a call with nothing to tell
    Done,
    // the nonce that was issued, or that a sealing took
    Nonce([u8; NONCE_LEN]),
    Length(usize),
    Tag([u8; TAG_LEN]),
    Refused(Refusal),
}

impl From<Result<usize, Refusal>> for Reply {
    ghost use Rattle.runs.specs.Scripts.{reply_to};

    ghost from_gives = { λ r reply. reply ≡ reply_to r };

    fn from(r: Result<usize, Refusal>) -> Reply {
        match r {
            Ok(n) => Reply::Length(n),
            Err(e) => Reply::Refused(e),
        }
    }
}

#[derive(Drop)]
pub struct Step<L> {
    pub call: Call<L>,
    pub reply: Reply,
    // the nonce that this step issued, until a sealing takes it
    pub nonce: Option<IssuedNonce>,
}

impl<L> Step<L> {
    ghost use Rattle.runs.specs.Stages.{TakesNonce, IssueRan};

    // A step that has not run.
    pub fn new(call: Call<L>) -> Step<L>
        ensures { result ≡ fresh call }
    {
        Step {
            call,
            reply: Reply::NotRun,
            nonce: None,
        }
    }

    // The nonce that the step issued and still holds.
    pub(crate) fn take_nonce(&mut self) -> Option<IssuedNonce>
        ensures { TakesNonce self.old result self.new }
    {
        match &self.call {
            Call::Issue => self.nonce.take(),
            _ => None,
        }
    }

    // Issues a nonce, which the step then holds.
    pub(crate) fn issue(&mut self, book: &mut NonceBook)
        ensures { IssueRan book.old self.old book.new self.new }
    {
        // two fields by one answer, each set in its arm
        match book.issue() {
            Ok(nonce) => {
                self.reply = Reply::Nonce(*nonce.bytes());
                self.nonce = Some(nonce);
            }
            Err(e) => {
                self.reply = Reply::Refused(e);
                self.nonce = None;
            }
        }
    }
}
