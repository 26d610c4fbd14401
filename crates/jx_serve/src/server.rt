ghost use Rattle.std.specs.Prelude.{◌≡◌, ◌<◌, ◌++◌, ◌∷◌, [], ℕ, Option, Some, None, IfSome, OnOk, OnErr, Vec, false, length, map, slice_get};
ghost use Rattle.std.specs.Global.{Global};
ghost use Rattle.jx_edit.specs.declared.positions.encoding.Encoding.{Encoding};
ghost use Rattle.jx_index.specs.ByNames.{IsVerdictBy};
ghost use Rattle.jx_serve.specs.Served.{all_lost, AreMade, AreAround, AreAroundIn, AreFolds, AreFoldsIn, AreMadeAt, AreSymbols, HasVersion, IsHover, IsHoverIn, IsOutlineIn, lost_open, number_named, IsAnswer, IsQuiet, OpenValue, TellsOf, TellsVerdict};
ghost use Rattle.jx_serve.specs.Steps.{sent, settings_asked, start, with_documents, without, AnswersIn, AnswersNew, FollowsIn, IsChanged, IsClosed, IsOpened, IsToldOf, Leaves, Steps};

use crate::held::Held;
use crate::reply::{Code, Reply, Trouble};
use jx_edit::Encoding;
use jx_lex::Depth;
use jx_run::{FrontMark, NameRule, Settings, Verdict};
use jx_wire::{Call, Change, Content, Offer, Place, Request, Uri, Versioned};
use std::alloc::{AllocError, Global};
use std::marker::Model;

/// How far a client and the server have come.
#[derive(Clone, Copy, Debug, PartialEq, Eq)]
pub enum Phase {
    /// Before `initialize`.
    New,
    Ready,
    /// After `shutdown`.
    Down,
    /// After `exit`, which is clean after `shutdown` alone.
    Ended { clean: bool },
}

/// A document that is open.
#[derive(Drop)]
pub struct Open {
    uri: Uri,
    content: Content,
    held: Held,
}

impl Model for Open {
    ghost use Rattle.jx_serve.specs.Served.{OpenValue};

    ghost Value = { OpenValue };

    ghost view = { λ o. record { name = o.uri.name.items; spelt = o.uri.spelt.items; content = o.content; held = o.held } };
}

impl Open {
    /// The verdict on the document, or on its lines.
    fn published(&mut self, alloc: Global, encoding: Encoding, version: Option<Vec<u8>>) -> Reply
        ensures same { self.new ≡ self.old }
        ensures answers { IsAnswer None result }
        ensures tells { TellsOf encoding self.new result }
        ensures version { HasVersion version result }
        ensures told { IsToldOf encoding version self.old result }
    {
        match self.content {
            Content::Text => self.published_text(alloc, encoding, version),
            Content::Lines => self.published_lines(alloc, encoding, version),
        }
    }

    /// The verdict on the document, which is one text.
    fn published_text(
        &mut self,
        alloc: Global,
        encoding: Encoding,
        version: Option<Vec<u8>>,
    ) -> Reply
        requires text { self.old.content ≡ Content.Text }
        ensures same { self.new ≡ self.old }
        ensures answers { IsAnswer None result }
        ensures tells { TellsOf encoding self.new result }
        ensures version { HasVersion version result }
        ensures told { IsToldOf encoding version self.old result }
    {
        match self.held.verdict() {
            Err(AllocError) => logged(Trouble::Memory),
            Ok(None) => logged(Trouble::Lost),
            Ok(Some(verdict)) => self.told(alloc, encoding, version, verdict),
        }
    }

    /// The diagnostics of the document's lines.
    fn published_lines(
        &mut self,
        alloc: Global,
        encoding: Encoding,
        version: Option<Vec<u8>>,
    ) -> Reply
        requires lines { self.old.content ≡ Content.Lines }
        ensures same { self.new ≡ self.old }
        ensures answers { IsAnswer None result }
        ensures tells { TellsOf encoding self.new result }
        ensures version { HasVersion version result }
        ensures told { IsToldOf encoding version self.old result }
    {
        let Ok(uri) = Vec::from_slice(alloc, &self.uri.spelt) else {
            return logged(Trouble::Memory);
        };
        match self.held.line_marks(encoding) {
            Err(AllocError) => logged(Trouble::Memory),
            Ok(None) => logged(Trouble::Lost),
            Ok(Some(marks)) => Reply::PublishedLines {
                uri,
                version,
                marks,
            },
        }
    }

    /// The reply that publishes a verdict on the document.
    fn told(
        &self,
        alloc: Global,
        encoding: Encoding,
        version: Option<Vec<u8>>,
        verdict: Verdict,
    ) -> Reply
        requires known { self.now.held.lost ≡ false }
        requires text { self.now.content ≡ Content.Text }
        requires judged { IsVerdictBy self.now.held.settings self.now.held.bytes verdict }
        ensures answers { IsAnswer None result }
        ensures tells { TellsOf encoding self.now result }
        ensures version { HasVersion version result }
        ensures told { IsToldOf encoding version self.now result }
    {
        let Ok(uri) = Vec::from_slice(alloc, &self.uri.spelt) else {
            return logged(Trouble::Memory);
        };
        match self.held.mark(encoding, verdict) {
            Ok(mark) => Reply::Published { uri, version, mark },
            Err(AllocError) => logged(Trouble::Memory),
        }
    }
}

impl Open {
    /// Forgets its bytes until all of them come.
    fn lose(&mut self)
        ensures { self.new ≡ lost_open self.old }
    {
        self.held.lose();
    }

    /// The value at a place of the document, as the answer to a request.
    fn hovered(&mut self, id: Vec<u8>, place: Place, encoding: Encoding) -> Reply
        ensures same { self.new ≡ self.old }
        ensures answers { IsAnswer (Some id) result }
        ensures quiet { IsQuiet result }
        ensures shows { IsHoverIn encoding place result self.old }
    {
        match self.content {
            Content::Lines => Reply::Null { id },
            Content::Text => match self.held.hover(place, encoding) {
                Ok(Some(hover)) => Reply::Hovered { id, hover },
                Ok(None) => Reply::Null { id },
                Err(AllocError) => refused(id, Code::RequestFailed),
            },
        }
    }

    /// The values of the document, as the answer to a request.
    fn outlined(&mut self, alloc: Global, id: Vec<u8>, nested: bool, encoding: Encoding) -> Reply
        ensures same { self.new ≡ self.old }
        ensures answers { IsAnswer (Some id) result }
        ensures quiet { IsQuiet result }
        ensures shows { IsOutlineIn encoding nested result self.old }
    {
        let Ok(uri) = Vec::from_slice(alloc, &self.uri.spelt) else {
            return refused(id, Code::RequestFailed);
        };
        match self.content {
            Content::Lines => Reply::Null { id },
            Content::Text => match self.held.symbols(encoding) {
                Ok(Some(outline)) => Reply::Outlined {
                    id,
                    uri,
                    nested,
                    outline,
                },
                Ok(None) => Reply::Null { id },
                Err(AllocError) => refused(id, Code::RequestFailed),
            },
        }
    }
}

impl Open {
    /// The values of the document to fold, as the answer to a request.
    fn folded(&mut self, id: Vec<u8>, encoding: Encoding) -> Reply
        ensures same { self.new ≡ self.old }
        ensures answers { IsAnswer (Some id) result }
        ensures quiet { IsQuiet result }
        ensures shows { AreFoldsIn encoding result self.old }
    {
        match self.content {
            Content::Lines => Reply::Null { id },
            Content::Text => match self.held.symbols(encoding) {
                Ok(Some(outline)) => Reply::Folded { id, outline },
                Ok(None) => Reply::Null { id },
                Err(AllocError) => refused(id, Code::RequestFailed),
            },
        }
    }

    /// The ranges around places of the document, as the answer to a request.
    fn selected(&mut self, id: Vec<u8>, places: &[Place], encoding: Encoding) -> Reply
        ensures same { self.new ≡ self.old }
        ensures answers { IsAnswer (Some id) result }
        ensures quiet { IsQuiet result }
        ensures shows { AreAroundIn encoding places.now result self.old }
    {
        match self.content {
            Content::Lines => Reply::Null { id },
            Content::Text => match self.held.selections(places, encoding) {
                Ok(Some(selections)) => Reply::Selected { id, selections },
                Ok(None) => Reply::Null { id },
                Err(AllocError) => refused(id, Code::RequestFailed),
            },
        }
    }
}

/// The state of a server: how far it has come with its client, and which documents are open.
#[derive(Drop)]
pub struct Server {
    alloc: Global,
    phase: Phase,
    encoding: Encoding,
    settings: Settings,
    nested: bool,
    documents: Vec<Open>,
}

impl Model for Server {
    ghost use Rattle.jx_serve.specs.Served.{ServerValue};

    ghost Value = { ServerValue };

    ghost view = { λ s. record { phase = s.phase; encoding = s.encoding; settings = s.settings; nested = s.nested; documents = s.documents.items } };
}

/// Forgets the bytes of all documents.
fn lose_all(documents: &mut [Open])
    ensures { documents.new ≡ map lost_open documents.old }
{
    for open in documents.iter_mut() {
        open.lose();
    }
}

/// The settings that a client asks for.
fn settings_of(offer: Offer) -> Settings
    ensures { result ≡ settings_asked offer }
{
    let depth = match offer.depth {
        Some(depth) if depth <= 65535 => Depth::new(depth as u32),
        _ => None,
    };
    Settings {
        depth: depth.unwrap_or(Depth::default()),
        mark: if offer.ignore_bom {
            FrontMark::Ignored
        } else {
            FrontMark::Refused
        },
        names: if offer.unique_names {
            NameRule::Unique
        } else {
            NameRule::Any
        },
    }
}

impl Server {
    /// A server before `initialize`. It takes no memory.
    pub fn new(alloc: Global) -> Server
        ensures { result ≡ start }
    {
        Server {
            alloc,
            phase: Phase::New,
            encoding: Encoding::Utf16,
            settings: Settings {
                depth: Depth::default(),
                mark: FrontMark::Refused,
                names: NameRule::Any,
            },
            nested: false,
            documents: Vec::new(alloc),
        }
    }

    /// The phase in which it is.
    pub fn phase(&self) -> Phase
        ensures { result ≡ self.now.phase }
    {
        self.phase
    }

    /// Forgets the bytes of all documents, until the client sends all of them.
    pub fn lose(&mut self)
        ensures { self.new ≡ all_lost self.old }
    {
        lose_all(&mut self.documents);
    }

    /// Follows a message, and returns what to answer.
    pub fn step(&mut self, request: Request) -> Reply
        ensures steps { Steps request self.old self.new result }
        ensures answers { IsAnswer request.id result }
        ensures tells { TellsVerdict self.new result }
    {
        let Request { id, call } = request;
        match id {
            Some(id) => self.answer(id, call),
            None => self.follow(call),
        }
    }

    /// Answers a request.
    fn answer(&mut self, id: Vec<u8>, call: Call) -> Reply
        ensures steps { AnswersIn self.old.phase id call self.old self.new result }
        ensures answers { IsAnswer (Some id) result }
        ensures quiet { IsQuiet result }
    {
        match (self.phase, call) {
            (Phase::New, Call::Initialize(offer)) => self.initialize(id, offer),
            (Phase::New, _) => refused(id, Code::NotInitialized),
            (Phase::Ready, Call::Shutdown) => {
                self.phase = Phase::Down;
                Reply::Null { id }
            }
            (Phase::Ready, Call::Initialize(_)) => refused(id, Code::InvalidRequest),
            (Phase::Ready, Call::WrongParameters) => refused(id, Code::InvalidParams),
            (Phase::Ready, Call::Hover { uri, place }) => self.hover(id, &uri, place),
            (Phase::Ready, Call::Symbols(uri)) => self.symbols(id, &uri),
            (Phase::Ready, Call::Folds(uri)) => self.folds(id, &uri),
            (Phase::Ready, Call::Selection { uri, places }) => self.selections(id, &uri, &places),
            (Phase::Ready, _) => refused(id, Code::MethodNotFound),
            (Phase::Down | Phase::Ended { .. }, _) => refused(id, Code::InvalidRequest),
        }
    }

    /// Answers with the innermost value at a place of a document, with its pointer. Null where the document is not open or is
    /// JSON Lines, its bytes are lost, or no value stands there before the fault.
    pub fn hover(&mut self, id: Vec<u8>, uri: &Uri, place: Place) -> Reply
        ensures same { self.new ≡ self.old }
        ensures answers { IsAnswer (Some id) result }
        ensures quiet { IsQuiet result }
        ensures shows { IsHover self.old uri.now.name.items place result }
    {
        match self.number_of(&uri.name) {
            None => Reply::Null { id },
            Some(number) => {
                let encoding = self.encoding;
                self.documents[number].hovered(id, place, encoding)
            }
        }
    }

    /// Answers with the first 10,000 values of a document that begin before the fault. Null where it is not open or is JSON
    /// Lines, or its bytes are lost.
    pub fn symbols(&mut self, id: Vec<u8>, uri: &Uri) -> Reply
        ensures same { self.new ≡ self.old }
        ensures answers { IsAnswer (Some id) result }
        ensures quiet { IsQuiet result }
        ensures lists { AreSymbols self.old uri.now.name.items result }
    {
        match self.number_of(&uri.name) {
            None => Reply::Null { id },
            Some(number) => {
                let encoding = self.encoding;
                self.documents[number].outlined(self.alloc, id, self.nested, encoding)
            }
        }
    }

    /// Answers with the first 10,000 values of a document that begin before the fault: those over several lines can be folded.
    /// Null where it is not open or is JSON Lines, or its bytes are lost.
    pub fn folds(&mut self, id: Vec<u8>, uri: &Uri) -> Reply
        ensures same { self.new ≡ self.old }
        ensures answers { IsAnswer (Some id) result }
        ensures quiet { IsQuiet result }
        ensures lists { AreFolds self.old uri.now.name.items result }
    {
        match self.number_of(&uri.name) {
            None => Reply::Null { id },
            Some(number) => {
                let encoding = self.encoding;
                self.documents[number].folded(id, encoding)
            }
        }
    }

    /// Answers with what stands around each of some places of a document before the fault. Null where it is not open or is JSON
    /// Lines, or its bytes are lost.
    pub fn selections(&mut self, id: Vec<u8>, uri: &Uri, places: &[Place]) -> Reply
        ensures same { self.new ≡ self.old }
        ensures answers { IsAnswer (Some id) result }
        ensures quiet { IsQuiet result }
        ensures tells { AreAround self.old uri.now.name.items places.now result }
    {
        match self.number_of(&uri.name) {
            None => Reply::Null { id },
            Some(number) => {
                let encoding = self.encoding;
                self.documents[number].selected(id, places, encoding)
            }
        }
    }

    fn initialize(&mut self, id: Vec<u8>, offer: Offer) -> Reply
        ensures steps { AnswersNew id (Call.Initialize offer) self.old self.new result }
        ensures answers { IsAnswer (Some id) result }
        ensures quiet { IsQuiet result }
    {
        self.phase = Phase::Ready;
        self.settings = settings_of(offer);
        self.nested = offer.nested;
        self.encoding = if offer.utf8 {
            Encoding::Utf8
        } else {
            Encoding::Utf16
        };
        Reply::Initialized {
            id,
            utf8: offer.utf8,
        }
    }

    /// Follows a notification.
    fn follow(&mut self, call: Call) -> Reply
        ensures steps { FollowsIn self.old.phase call self.old self.new result }
        ensures answers { IsAnswer None result }
        ensures tells { TellsVerdict self.new result }
    {
        match (self.phase, call) {
            (
                Phase::Ready,
                Call::Open {
                    document,
                    content,
                    text,
                },
            ) => self.open(document, content, text),
            (Phase::Ready, Call::Change { document, changes }) => self.change(document, &changes),
            (Phase::Ready, Call::Close(uri)) => self.close(uri),
            (Phase::Ready, Call::Exit) => self.leave(false),
            (Phase::Ready, _) => Reply::Nothing,
            (Phase::New, Call::Exit) => self.leave(false),
            (Phase::New, _) => Reply::Nothing,
            (Phase::Down, Call::Exit) => self.leave(true),
            (Phase::Down, _) => Reply::Nothing,
            (Phase::Ended { .. }, _) => Reply::Nothing,
        }
    }

    fn leave(&mut self, clean: bool) -> Reply
        ensures { Leaves clean self.old self.new result }
    {
        self.phase = Phase::Ended { clean };
        Reply::Nothing
    }

    /// The number of the document of a name, if it is open.
    fn number_of(&self, name: &[u8]) -> Option<usize>
        ensures first { result ≡ number_named name.now self.now.documents }
        ensures within { IfSome result (λ number. number < length self.now.documents) }
    {
        self.documents
            .iter()
            .position(|open| open.uri.name.as_slice() == name)
    }

    fn open(&mut self, document: Versioned, content: Content, text: Change) -> Reply
        ensures steps { IsOpened document content text self.old self.new result }
        ensures answers { IsAnswer None result }
        ensures tells { TellsVerdict self.new result }
    {
        let Versioned { uri, version } = document;
        self.forget(&uri.name);
        match self.add(uri, content, &text) {
            Ok(()) => {
                let last = self.documents.len() - 1;
                self.publish(last, version)
            }
            Err(AllocError) => logged(Trouble::Memory),
        }
    }

    /// Forgets the first document of a name, if there is one.
    fn forget(&mut self, name: &[u8])
        ensures { self.new ≡ with_documents (without name.now self.old.documents) self.old }
    {
        if let Some(number) = self.number_of(name) {
            let _ = self.documents.remove(number);
        }
    }

    /// Adds a document after those that are open.
    fn add(&mut self, uri: Uri, content: Content, text: &Change) -> Result<(), AllocError>
        ensures some { OnOk result (0 < length self.new.documents) }
        ensures ok { OnOk result (self.new ≡ with_documents (self.old.documents ++ sent self.old uri content text.now ∷ []) self.old) }
        ensures err { OnErr result (self.new ≡ self.old) }
    {
        let encoding = self.encoding;
        let mut held = Held::of(self.alloc, &[], self.settings, encoding)?;
        held.change(text, encoding)?;
        self.documents.push(Open { uri, content, held })?;
        Ok(())
    }

    /// Follows the changes of a document, and publishes the verdict after them, or that on its lines.
    pub fn change(&mut self, document: Versioned, changes: &[Change]) -> Reply
        ensures answers { IsAnswer None result }
        ensures tells { TellsVerdict self.new result }
        ensures made { AreMade self.old.encoding document.uri.name.items changes.now self.old.documents self.new.documents }
        ensures version { HasVersion document.version result }
        ensures steps { IsChanged document changes.now self.old self.new result }
    {
        let Versioned { uri, version } = document;
        let Some(number) = self.number_of(&uri.name) else {
            return logged(Trouble::NotOpen);
        };
        match self.change_at(number, changes) {
            Ok(()) => self.publish(number, version),
            Err(AllocError) => logged(Trouble::Memory),
        }
    }

    /// Changes the document of a number.
    fn change_at(&mut self, number: usize, changes: &[Change]) -> Result<(), AllocError>
        requires { number < length self.old.documents }
        ensures made { AreMadeAt self.old.encoding number changes.now self.old.documents self.new.documents }
        ensures alone { self.new ≡ with_documents self.new.documents self.old }
    {
        let encoding = self.encoding;
        self.documents[number].held.change_all(changes, encoding)
    }

    fn close(&mut self, uri: Uri) -> Reply
        ensures steps { IsClosed uri self.old self.new result }
        ensures answers { IsAnswer None result }
        ensures quiet { IsQuiet result }
    {
        match self.number_of(&uri.name) {
            None => logged(Trouble::NotOpen),
            Some(number) => {
                let _ = self.documents.remove(number);
                Reply::Closed { uri: uri.spelt }
            }
        }
    }

    /// Publishes the verdict on a document, or on its lines.
    fn publish(&mut self, number: usize, version: Option<Vec<u8>>) -> Reply
        requires { number < length self.old.documents }
        ensures same { self.new ≡ self.old }
        ensures answers { IsAnswer None result }
        ensures tells { TellsVerdict self.new result }
        ensures version { HasVersion version result }
        ensures told { IfSome (slice_get self.old.documents number) (λ document. IsToldOf self.old.encoding version document result) }
    {
        let encoding = self.encoding;
        let alloc = self.alloc;
        self.documents[number].published(alloc, encoding, version)
    }
}

fn refused(id: Vec<u8>, code: Code) -> Reply
    ensures { result ≡ Reply.Refused (Some id) code None }
{
    Reply::Refused {
        id: Some(id),
        code,
        refusal: None,
    }
}

fn logged(trouble: Trouble) -> Reply
    ensures same { result ≡ Reply.Logged trouble }
    ensures answers { IsAnswer None result }
    ensures quiet { IsQuiet result }
    ensures of_none { (encoding : Encoding) (document : OpenValue) → TellsOf encoding document result }
    ensures of_any { (version : Option (Vec ℕ Global)) → HasVersion version result }
{
    Reply::Logged { trouble }
}
