// Laws of the agents of a network, each the contract of a function that does nothing.
ghost use Rattle.world_promises.specs.Worlds.{AllDo, AllSeated, ScriptsAreLegal, ScriptsDo, ScriptsRun};

/// Where no agent stopped, each is idle between acts, each conversation that is open has its fid, and the question of one that
/// is outstanding is one of its agent's.
pub fn agents_are_idle_between_acts()
    ensures { AllSeated }
{}

/// Each agent does by a turn what its conversations do.
pub fn agents_do_what_their_conversations_do()
    ensures { AllDo }
{}

/// So do those of a script.
pub fn agents_of_a_script_do_what_their_conversations_do()
    ensures { ScriptsDo }
{}

/// No agent of a script stops that is no longer than one may be.
pub fn agents_of_a_script_run()
    ensures { ScriptsRun }
{}

/// So the record of such a script is legal.
pub fn records_of_scripts_are_legal()
    ensures { ScriptsAreLegal }
{}
