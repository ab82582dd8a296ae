// Laws of what a script does, each the contract of a function that does nothing.
ghost use Rattle.std.specs.Prelude.{ℕ, List, reverse};
ghost use Rattle.wire_base.specs.Names.{IsName};
ghost use Rattle.wire_histories.specs.Histories.{IsNumbered};
ghost use Rattle.wire_histories.specs.Legal.{IsLegal};
ghost use Rattle.world_history.specs.Acts.{Act, domain};
ghost use Rattle.world_history.specs.Scripts.{play, world};
ghost use Rattle.world_promises.specs.Agents.{AgentsDo};
ghost use Rattle.world_promises.specs.Conditions.{AreDone};
ghost use Rattle.world_promises.specs.Settings.{setting};
ghost use Rattle.world_promises.specs.LegalityStatements.{ConversationsAre, KeysAreOfRings, SessionsAre, record_of};

/// The acts of a script fit one behind the other, and are spelled as its lines spell them.
pub fn acts_of_a_script_are_done()
    ensures { (script : List ℕ) → AreDone (play script).acts }
{}

/// The messages of a record are numbered from 0 in the order in which they were recorded, whatever the acts are.
pub fn messages_are_numbered()
    ensures { (acts : List Act) → IsNumbered (record_of acts) }
{}

/// The domain of the authentication server is a name.
pub fn the_domain_is_a_name()
    ensures { (acts : List Act) → AreDone acts → IsName 48 (domain acts) }
{}

/// Each session of the authentication server does what its requests leave, by the tables that were told.
pub fn sessions_are_served()
    ensures { (acts : List Act) → AreDone acts → SessionsAre acts }
{}

/// The record is legal where each conversation does what a talk leaves.
pub fn records_are_legal()
    ensures { (acts : List Act) → AreDone acts → ConversationsAre acts
        → IsLegal (record_of acts) (setting acts) }
{}

/// Each key by which a need of a conversation was met is such as a ring has.
pub fn keys_are_of_rings()
    ensures { (acts : List Act) → KeysAreOfRings acts }
{}

/// Each conversation does what a talk leaves, where each agent does by a turn what its conversations do.
pub fn conversations_do_what_talks_leave()
    ensures { (acts : List Act) → AreDone acts → AgentsDo acts → ConversationsAre acts }
{}

/// So the record of a script is legal where each agent does by a turn what its conversations do.
pub fn worlds_are_legal()
    ensures { (script : List ℕ) → AgentsDo (play script).acts
        → IsLegal (reverse (world script)) (setting (play script).acts) }
{}
