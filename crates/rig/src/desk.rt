// The bench: a memory, or none yet.
ghost use Rattle.std.specs.Prelude.{◌≡◌, None};
ghost use Rattle.reply.specs.Replies.{said};
ghost use Rattle.rig.specs.Working.{Answered};
ghost use Rattle.rig.specs.Desk.{fitting, windowing, on_setup, worked, performing};

use super::work::apply;
use cells::{Cell, Counter};
use either_memory::Either;
use memory::Window;
use parts::{Flash, NotMade, Part, Rewriting};
use reply::Reply;
use script::{Command, Style};
use std::alloc::{AllocError, Global};

type AnyPart = Either<Rewriting, Flash>;

// A part of either kind, under no window, one or two.
#[derive(Drop)]
pub(crate) enum Store {
    Bare(AnyPart),
    Window(Window<AnyPart>),
    Nested(Window<Window<AnyPart>>),
}

// What stands on the bench, and the host's memory for it.
#[derive(Drop)]
pub(crate) struct Rig {
    heap: Global,
    store: Option<Store>,
}

impl Store {
    ghost use Rattle.rig.specs.Store.{setup_of};

    // Opens a window onto the memory, unless there are two already. The first two arms differ in their variants alone; a
    // function of both would be handed four, and say less.
    fn windowed(self, first: u16, count: u16) -> (Reply, Store)
        ensures said { said result.0 ≡ (windowing (setup_of self) first count).0 }
        ensures leaves { setup_of result.1 ≡ (windowing (setup_of self) first count).1 }
    {
        match self {
            Store::Bare(part) => match Window::new(part, first, count) {
                Ok(window) => (Reply::Done, Store::Window(window)),
                Err((fault, part)) => (Reply::Refused(fault), Store::Bare(part)),
            },
            Store::Window(inner) => match Window::new(inner, first, count) {
                Ok(window) => (Reply::Done, Store::Nested(window)),
                Err((fault, inner)) => (Reply::Refused(fault), Store::Window(inner)),
            },
            Store::Nested(inner) => (Reply::Misuse, Store::Nested(inner)),
        }
    }

    // Has a command done by the memory, whatever windows it is under.
    fn perform(&mut self, heap: Global, command: &Command) -> Result<Reply, AllocError>
        ensures { Answered result (worked command.now (setup_of self.old)) (setup_of self.old) (setup_of self.new) }
    {
        match self {
            Store::Bare(part) => apply(part, heap, command),
            Store::Window(window) => apply(window, heap, command),
            Store::Nested(window) => apply(window, heap, command),
        }
    }
}

impl Rig {
    ghost use Rattle.rig.specs.Store.{desk_of, PartMade};

    // An empty bench.
    pub(crate) fn new(heap: Global) -> Rig
        ensures { desk_of result ≡ None }
    {
        Rig { heap, store: None }
    }

    // A new part of a style.
    fn new_part(&self, style: Style, size: u16) -> Result<AnyPart, NotMade>
        ensures { PartMade style size result }
    {
        match style {
            Style::Rewriting => Ok(Either::Left(Part::new(self.heap, size)?)),
            Style::Flash => Ok(Either::Right(Part::new(self.heap, size)?)),
        }
    }

    // Takes a new part, and puts away what stood there.
    fn fit(&mut self, style: Style, size: u16) -> Result<Reply, AllocError>
        ensures { Answered result (fitting (desk_of self.old) style size) (desk_of self.old) (desk_of self.new) }
    {
        match self.new_part(style, size) {
            Ok(part) => {
                self.store = Some(Store::Bare(part));
                Ok(Reply::Done)
            }
            Err(NotMade::Shape(fault)) => Ok(Reply::Refused(fault)),
            Err(NotMade::NoMemory(error)) => Err(error),
        }
    }

    // Puts a window before the memory.
    fn window(&mut self, first: u16, count: u16) -> Reply
        ensures said { said result ≡ (on_setup (desk_of self.old) (λ s. windowing s first count)).0 }
        ensures leaves { desk_of self.new ≡ (on_setup (desk_of self.old) (λ s. windowing s first count)).1 }
    {
        let Some(store) = self.store.take() else {
            return Reply::Misuse;
        };
        let (reply, store) = store.windowed(first, count);
        self.store = Some(store);
        reply
    }

    // Has a command done by the memory.
    fn hand_on(&mut self, command: &Command) -> Result<Reply, AllocError>
        ensures { Answered result (on_setup (desk_of self.old) (worked command.now)) (desk_of self.old) (desk_of self.new) }
    {
        let Some(store) = &mut self.store else {
            return Ok(Reply::Misuse);
        };
        store.perform(self.heap, command)
    }

    // Performs a command. Want of memory of the host leaves all as it was.
    pub(crate) fn perform(&mut self, command: &Command) -> Result<Reply, AllocError>
        ensures { Answered result (performing (desk_of self.old) command.now) (desk_of self.old) (desk_of self.new) }
    {
        match command {
            Command::Part(style, size) => self.fit(*style, *size),
            Command::Window(first, count) => Ok(self.window(*first, *count)),
            Command::Power(_, _)
            | Command::Off
            | Command::Write(_, _)
            | Command::Blank(_)
            | Command::Raise
            | Command::Read(_)
            | Command::Count
            | Command::Rows
            | Command::Load(_) => self.hand_on(command),
        }
    }
}
