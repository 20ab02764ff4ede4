// An acceptor's lent tables: one cell for each instance, as columns of rounds, of vote rounds and of values. Which of them are allowed is judged here, and here
// they are set fresh; the acceptor itself reads and writes their cells, since its step must not test an index that it has tested.
#![tactic(auto)]

ghost use Rattle.std.specs.Prelude.{◌≡◌};
ghost use Rattle.basics.specs.Outcome.{outcome};
ghost use Rattle.quorum.specs.Settings.{settings};
ghost use Rattle.acceptor_tables.specs.Tables.{tables, tables_allowed, is_allowed, acceptor_allowed, filled_fresh, acceptor_fresh};
ghost use Rattle.acceptor_tables.specs.Lent.{tables_behind, SameReferences};

use basics::{Refusal, Round, Verdict};
use quorum::Settings;

// Refusal 7 by itself, where no own number is given: M and N are allowed, and each table is sized for N.
fn tables_allowed(settings: Settings, rounds: usize, vote_rounds: usize, values: usize) -> bool
    ensures { result ≡ tables_allowed settings rounds vote_rounds values }
{
    let count = settings.instances as usize;
    quorum::settings_allowed(settings)
        & (rounds == count)
        & (vote_rounds == count)
        & (values == 2 * count)
}

// Refusal 7 by itself: that, and the own number is below M.
pub fn is_allowed(
    settings: Settings,
    own: u32,
    rounds: usize,
    vote_rounds: usize,
    values: usize,
) -> bool
    ensures { result ≡ is_allowed settings own rounds vote_rounds values }
{
    tables_allowed(settings, rounds, vote_rounds, values) & (own < settings.acceptors)
}

// The columns travel together. What writes them keeps each reference, and says so: thus a caller that lent its slices knows what they come to hold.
#[derive(Drop)]
pub struct Tables<'a> {
    pub rounds: &'a mut [u32],
    pub vote_rounds: &'a mut [u32],
    pub values: &'a mut [u64],
}

impl Tables<'_> {
    pub fn are_allowed(&self, settings: Settings, own: u32) -> bool
        ensures { result ≡ acceptor_allowed settings own (tables_behind self.now) }
    {
        is_allowed(
            settings,
            own,
            self.rounds.len(),
            self.vote_rounds.len(),
            self.values.len(),
        )
    }

    // No promise, no vote, no value, in as many cells as each column has.
    fn set_fresh(&mut self)
        ensures filled { tables_behind self.new ≡ filled_fresh (tables_behind self.old) }
        ensures same_references { SameReferences self.old self.new }
    {
        columns::fill_rounds(self.rounds, Round(0));
        columns::fill_rounds(self.vote_rounds, Round::NONE);
        columns::fill(self.values, 0);
    }
}

// The tables as a run begins with them, whatever they held: no promise, no vote, no value. They are left as `acceptor_fresh` says.
#[unsafe(no_mangle)]
pub extern "C" fn myrthakel_acceptor_fresh(
    acceptors: u32,
    instances: u32,
    rounds: &mut [u32],
    vote_rounds: &mut [u32],
    values: &mut [u64],
) -> u32
    ensures { let before = tables rounds.old vote_rounds.old values.old in
        let after = tables rounds.new vote_rounds.new values.new in
        outcome result after ≡ acceptor_fresh (settings acceptors instances) before }
{
    let settings = Settings {
        acceptors,
        instances,
    };
    if !tables_allowed(settings, rounds.len(), vote_rounds.len(), values.len()) {
        return Refusal::NotAllowed as u32;
    }
    let mut tables = Tables {
        rounds,
        vote_rounds,
        values,
    };
    tables.set_fresh();
    basics::verdict_number(Verdict::Done)
}
