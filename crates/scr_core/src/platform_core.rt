//! The core, which contracts see as its limits and its journal.
ghost use Rattle.scr_core.specs.Cores.{AreWithinGreatest};
ghost use Rattle.scr_world.specs.Legal.{IsLegal};
ghost use Rattle.scr_world.specs.Steps.{history_of};
ghost use Rattle.scr_world.specs.declared.reply.CoreFault.TheVariants.{OutOfMemory};
ghost use Rattle.std.specs.Prelude.{◌≡◌, [], IfErr, IfOk};

use crate::empty::empty_state;
use journal_core::Journal;
use kept_wirings::KeptWirings;
use scr_dues::{Making, OwnRows};
use scr_state::State;
use scr_world::{CoreFault, Limits, Step, TurnLine};
use std::alloc::Global;
use std::marker::Model;

/// The core of a platform. Contracts see its limits and the entries of its journal, the oldest first.
///
/// Beside the journal it keeps the world that the journal says, what follows from it, the turns so far, how far an instance in the
/// making is, and what the manifests say of needs and offers. So no command, no turn and no question reads the journal again. It
/// waits for nobody, calls no component code, and appends at most one entry in a call.
#[derive(Drop)]
pub struct Core {
    pub(crate) limits: Limits,
    pub(crate) journal: Journal<Step>,
    pub(crate) state: State,
    pub(crate) own: OwnRows,
    pub(crate) lines: Vec<TurnLine>,
    pub(crate) making: Making,
    pub(crate) wirings: KeptWirings,
}

impl Model for Core {
    ghost use Rattle.scr_core.specs.Cores.{AreWithinGreatest, CoreView};
    ghost use Rattle.kept_wirings.specs.KeptRows.{AreKept};
    ghost use Rattle.scr_core.specs.Keeping.{KeepsAll};
    ghost use Rattle.scr_dues.specs.Makings.{IsThatFar};

    ghost Value = { CoreView };

    ghost use Rattle.std.specs.Coded.{codes};
    ghost use Rattle.ldap_filter.specs.TreeCodes.{tree_code};

    ghost coded = { Prim.hlevel (codes, tree_code) };

    ghost view = { λ c. record { limits = c.limits; journal = c.journal.entries } };

    ghost invariant = { λ c. KeepsAll c.limits.journal c.journal c.state c.lines.items × AreWithinGreatest c.limits × IsThatFar c.state.world c.making × AreKept c.state.world.documents c.wirings };
}

impl Core {
    /// A core with an empty journal. The limits have to be at most 4,194,304 entries and 1,000,000 turns.
    ///
    /// # Errors
    /// Only want of memory.
    pub fn new(alloc: Global, limits: Limits) -> Result<Core, CoreFault>
        requires within { AreWithinGreatest limits }
        ensures ok { IfOk result (λ core. core ≡ record { limits = limits; journal = [] }) }
        ensures err { IfErr result (λ fault. fault ≡ OutOfMemory) }
    {
        let own = OwnRows::new(alloc)?;
        let state = empty_state(alloc, &own)?;
        let journal = Journal::new(alloc, limits.journal);
        let lines = Vec::new(alloc);
        let making = Making::none();
        let wirings = KeptWirings::new(alloc);
        Ok(Core {
            limits,
            journal,
            state,
            own,
            lines,
            making,
            wirings,
        })
    }

    /// The limits that it was made with.
    pub fn limits(&self) -> Limits
        ensures limits { result ≡ self.now.limits }
        ensures within { AreWithinGreatest result }
    {
        self.limits
    }

    /// The journal: its entries as a slice, and how many there are at once.
    pub fn journal(&self) -> &Journal<Step>
        ensures entries { result.now.entries ≡ self.now.journal }
        ensures limit { result.now.limit ≡ self.now.limits.journal }
        ensures legal { IsLegal self.now.limits.journal (history_of self.now.journal) }
    {
        &self.journal
    }

    /// The journal alone. It takes no memory.
    pub fn into_journal(self) -> Journal<Step>
        ensures entries { result.entries ≡ self.journal }
        ensures limit { result.limit ≡ self.limits.journal }
        ensures legal { IsLegal self.limits.journal (history_of self.journal) }
    {
        self.journal
    }

    /// For contracts alone: the journal is legal.
    pub fn note_legal(&self)
        ensures { IsLegal self.now.limits.journal (history_of self.now.journal) }
    {
        // This lets the clause know the journal's entries.
        let _journal = &self.journal;
    }
}
