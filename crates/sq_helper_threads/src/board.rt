//! What the pump and the keepers share, as it lies behind its lock.
ghost use Rattle.std.specs.Prelude.{ℕ, ◌≡◌, ◌++◌, ◌∷◌, ◌==◌, [], false, position, IfSome, IfNone, IfOk, IfErr, OnOk, OnErr};
ghost use Rattle.sq_helper_threads.specs.Boards.{TakesEnded, marked, no_end, placed_proc, without};

use sq_base::ProcNo;
use sq_shared::{Ledgers, Refusals};
use std::alloc::Global;
use std::sync::ledger::Share;

/// A half that has the number of its process.
pub(crate) trait OfProcess {
    /// That number.
    ghost proc_of: { Self → ℕ };

    /// That number.
    fn proc(&self) -> ProcNo
        ensures { result ≡ proc_of self.now };
}

/// What a keeper takes up: the half of a process that is read, and a part of the book of refusals.
#[derive(Drop)]
pub(crate) struct Task<P, B: Ledgers> {
    pub(crate) half: P,
    pub(crate) refused: Share<Refusals<B>>,
    ghost part: { refused.parts ≡ 1 },
}

impl<P, B: Ledgers> Task<P, B> {
    // The half of a process, and a part of the book.
    pub(crate) fn new(half: P, refused: Share<Refusals<B>>) -> Task<P, B>
        requires { refused.parts ≡ 1 }
        ensures half { result.half ≡ half }
        ensures refused { result.refused ≡ refused }
    {
        Task { half, refused }
    }
}

/// That the half of a process was put for a keeper, and was not handed back. Only putting one makes it, and taking one back has it.
#[derive(Drop)]
pub(crate) struct PlacedTask {
    proc: ProcNo,
}

/// A process that has a keeper or is to have one, and whether that has ended.
#[derive(Clone, Copy)]
pub(crate) struct Post {
    pub(crate) proc: ProcNo,
    pub(crate) ended: bool,
}

/// The tasks that no keeper has taken up so far, and the posts of those that were given out, until the pump has let go
/// of their processes.
#[derive(Drop)]
pub(crate) struct Board<P, B: Ledgers> {
    tasks: Vec<Task<P, B>>,
    posts: Vec<Post>,
}

impl<P: OfProcess + Drop, B: Ledgers> Board<P, B> {
    // Nothing lies there yet.
    pub(crate) fn new(alloc: Global) -> Board<P, B>
        ensures tasks { result.tasks.items ≡ [] }
        ensures posts { result.posts.items ≡ [] }
    {
        Board {
            tasks: Vec::new(alloc),
            posts: Vec::new(alloc),
        }
    }

    // Puts a task for a keeper, which is handed back where memory is wanting.
    pub(crate) fn put(&mut self, task: Task<P, B>) -> Result<PlacedTask, Task<P, B>>
        ensures placed { IfOk result (λ placed. placed_proc placed ≡ P.proc_of task.half) }
        ensures task { IfErr result (λ back. back ≡ task) }
        ensures tasks { OnOk result (self.new.tasks.items ≡ self.old.tasks.items ++ task ∷ []) }
        ensures posts { OnOk result
            (self.new.posts.items ≡ self.old.posts.items
            ++ record { proc = P.proc_of task.half; ended = false } ∷ []) }
        ensures err_tasks { OnErr result (self.new.tasks.items ≡ self.old.tasks.items) }
        ensures err_posts { OnErr result (self.new.posts.items ≡ self.old.posts.items) }
    {
        if self.tasks.reserve(1).is_err() || self.posts.reserve(1).is_err() {
            return Err(task);
        }
        let proc = task.half.proc();
        self.posts.push_reserved(Post { proc, ended: false });
        self.tasks.push_reserved(task);
        Ok(PlacedTask { proc })
    }

    // The task that was put last, for a keeper. Its post stays.
    pub(crate) fn take(&mut self) -> Option<Task<P, B>>
        ensures some { IfSome result
            (λ task. self.old.tasks.items ≡ self.new.tasks.items ++ task ∷ []) }
        ensures none { IfNone result (self.old.tasks.items ≡ []) }
        ensures none_same { IfNone result (self.new.tasks.items ≡ []) }
        ensures posts { self.new.posts ≡ self.old.posts }
    {
        self.tasks.pop()
    }

    // The task that was put last, for the pump, with its post, in the place of one that was put. Where none is left, what was put stays
    // so.
    pub(crate) fn take_back(&mut self, placed: PlacedTask) -> Result<Task<P, B>, PlacedTask>
        ensures ok { IfOk result
            (λ task. self.old.tasks.items ≡ self.new.tasks.items ++ task ∷ []) }
        ensures posts { IfOk result
            (λ task. self.new.posts.items ≡ without (P.proc_of task.half) self.old.posts.items) }
        ensures err { OnErr result (self.old.tasks.items ≡ []) }
        ensures err_posts { OnErr result (self.new.posts ≡ self.old.posts) }
        ensures placed { IfErr result (λ still. still ≡ placed) }
    {
        match self.tasks.pop() {
            None => Err(placed),
            Some(task) => {
                self.unpost(task.half.proc());
                Ok(task)
            }
        }
    }

    // The place of the first post of this process.
    fn place(&self, proc: ProcNo) -> Option<usize>
        ensures { result ≡ position (λ post. post.proc == proc) self.now.posts.items }
    {
        self.posts.iter().position(|post| post.proc == proc)
    }

    // Takes the first post of this process away.
    fn unpost(&mut self, proc: ProcNo)
        ensures posts { self.new.posts.items ≡ without proc self.old.posts.items }
        ensures tasks { self.new.tasks ≡ self.old.tasks }
    {
        match self.place(proc) {
            None => {}
            Some(place) => {
                let _post = self.posts.remove(place);
            }
        }
    }

    // The place of the first post whose keeper has ended.
    fn ended_place(&self) -> Option<usize>
        ensures { result ≡ position (λ post. post.ended) self.now.posts.items }
    {
        self.posts.iter().position(|post| post.ended)
    }

    // The keeper of this half has ended. It takes no memory.
    pub(crate) fn end(&mut self, half: &P)
        ensures posts { self.new.posts.items ≡ marked (P.proc_of half.now) self.old.posts.items }
        ensures tasks { self.new.tasks ≡ self.old.tasks }
    {
        self.mark(half.proc());
    }

    // The keeper of this process has ended.
    fn mark(&mut self, proc: ProcNo)
        ensures posts { self.new.posts.items ≡ marked proc self.old.posts.items }
        ensures tasks { self.new.tasks ≡ self.old.tasks }
    {
        match self.place(proc) {
            None => {}
            Some(place) => self.posts[place] = Post { proc, ended: true },
        }
    }

    // The first process whose keeper has ended. Its post is taken away.
    pub(crate) fn ended(&mut self) -> Option<ProcNo>
        ensures some { IfSome result
            (λ proc. TakesEnded proc self.old.posts.items self.new.posts.items) }
        ensures none { IfNone result (no_end self.old.posts.items) }
        ensures none_posts { IfNone result (self.new.posts ≡ self.old.posts) }
        ensures tasks { self.new.tasks ≡ self.old.tasks }
    {
        match self.ended_place() {
            None => None,
            Some(place) => Some(self.posts.remove(place).proc),
        }
    }
}
