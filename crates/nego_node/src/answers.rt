//! What a node answers to a task, with its truth.

ghost use Rattle.std.specs.Prelude.{◌≡◌, IfOk};
ghost use Rattle.nego_node.specs.Truth.{Serves, NothingServes};
ghost use Rattle.nego_node.specs.Lawful.{task_of};
ghost use Rattle.nego_node.specs.Sound.{IsTrueOf};

use crate::tasks::Task;
use containers::Shared;
use nego_laws::field::Offer;
use std::alloc::AllocError;
use std::marker::Model;

/// An offer that does what the task seeks.
#[derive(Drop)]
pub struct Proposal<O: Offer> {
    task: Shared<Task<O>>,
    offer: Shared<O>,
}

impl<O: Offer> Model for Proposal<O> {
    ghost use Rattle.nego_node.specs.Proposed.{Proposed};
    ghost use Rattle.nego_node.specs.Truth.{Serves};

    ghost Value = { Proposed O };

    ghost view = { λ p. record { task = p.task; offer = p.offer } };

    ghost invariant = { λ p. Serves O.tree (O.tree p.task.given) p.task p.offer };
}

/// No offer does what the task seeks.
#[derive(Drop)]
pub struct Exhausted<O: Offer> {
    task: Shared<Task<O>>,
}

impl<O: Offer> Model for Exhausted<O> {
    ghost use Rattle.nego_node.specs.Truth.{NothingServes};
    ghost use Rattle.nego_node.specs.declared.tasks.Task.{Task};

    ghost Value = { Task O };

    ghost view = { λ e. e.task };

    ghost invariant = { λ e. NothingServes O.tree (O.tree e.task.given) e.task };
}

/// What a node answers.
#[derive(Drop)]
pub enum Answer<O: Offer> {
    Proposal(Proposal<O>),
    Exhausted(Exhausted<O>),
}

impl<O: Offer> Proposal<O> {
    /// An offer, which must do what the task seeks.
    pub fn new(task: Shared<Task<O>>, offer: Shared<O>) -> Proposal<O>
        requires { Serves O.tree (O.tree task.given) task offer }
        ensures { result ≡ record { task = task; offer = offer } }
    {
        Proposal { task, offer }
    }

    /// The task, and that the offer serves it.
    pub fn task(&self) -> &Shared<Task<O>>
        ensures task { result.now ≡ self.now.task }
        ensures truth { Serves O.tree (O.tree self.now.task.given) self.now.task self.now.offer }
    {
        &self.task
    }

    /// The offer, and that it serves the task.
    pub fn offer(&self) -> &Shared<O>
        ensures offer { result.now ≡ self.now.offer }
        ensures truth { Serves O.tree (O.tree self.now.task.given) self.now.task self.now.offer }
    {
        &self.offer
    }

    /// Another owner of the same proposal.
    pub fn copy(&self) -> Result<Proposal<O>, AllocError>
        ensures { IfOk result (λ same. same ≡ self.now) }
    {
        Ok(Proposal {
            task: self.task.copy()?,
            offer: self.offer.copy()?,
        })
    }

    /// The task alone.
    pub(crate) fn into_task(self) -> Shared<Task<O>>
        ensures { result ≡ self.task }
    {
        self.task
    }
}

impl<O: Offer> Exhausted<O> {
    /// A task, which no offer must do.
    pub fn new(task: Shared<Task<O>>) -> Exhausted<O>
        requires { NothingServes O.tree (O.tree task.given) task }
        ensures { result ≡ task }
    {
        Exhausted { task }
    }

    /// The task, and that nothing serves it.
    pub fn task(&self) -> &Shared<Task<O>>
        ensures task { result.now ≡ self.now }
        ensures truth { NothingServes O.tree (O.tree self.now.given) self.now }
    {
        &self.task
    }

    /// Another owner of the same answer.
    pub fn copy(&self) -> Result<Exhausted<O>, AllocError>
        ensures { IfOk result (λ same. same ≡ self.now) }
    {
        Ok(Exhausted {
            task: self.task.copy()?,
        })
    }

    /// The task alone.
    pub(crate) fn into_task(self) -> Shared<Task<O>>
        ensures { result ≡ self }
    {
        self.task
    }
}

impl<O: Offer> Answer<O> {
    /// The task that is answered, and that what the answer says of it is true.
    pub fn task(&self) -> &Shared<Task<O>>
        ensures task { result.now ≡ task_of self.now }
        ensures truth { IsTrueOf O.tree self.now }
    {
        match self {
            Answer::Proposal(proposal) => proposal.task(),
            Answer::Exhausted(exhausted) => exhausted.task(),
        }
    }

    /// Another owner of the same answer.
    pub fn copy(&self) -> Result<Answer<O>, AllocError>
        ensures { IfOk result (λ same. same ≡ self.now) }
    {
        match self {
            Answer::Proposal(proposal) => Ok(Answer::Proposal(proposal.copy()?)),
            Answer::Exhausted(exhausted) => Ok(Answer::Exhausted(exhausted.copy()?)),
        }
    }

    /// The task alone.
    pub(crate) fn into_task(self) -> Shared<Task<O>>
        ensures { result ≡ task_of self }
    {
        match self {
            Answer::Proposal(proposal) => proposal.into_task(),
            Answer::Exhausted(exhausted) => exhausted.into_task(),
        }
    }
}
