// Laws of the definitions, each the contract of a function that does nothing.
ghost use Rattle.world_history.specs.MadeNames.{MadeIsNamed};
ghost use Rattle.world_history.specs.Telling.{AskedKnown, DomTold, KeyTold, KeysFew, SpeakTold, SpeaksFew, TellsAgain, TellsFirst, TellsOn};

/// What was read ahead of a run is what its acts tell, of the first tables and of those that were read again: a line of a table
/// is refused where it is the first bad one or comes too late, and at each request the server knows what was told before.
pub fn tables_are_told_in_time()
    ensures first { TellsFirst }
    ensures on { TellsOn }
    ensures again { TellsAgain }
    ensures dom { DomTold }
    ensures keys { KeyTold }
    ensures speaks { SpeakTold }
    ensures few_keys { KeysFew }
    ensures few_speaks { SpeaksFew }
    ensures asked { AskedKnown }
{}

/// No line of a script that is made of a number is refused for a name that nobody made or that is taken, nor for its place:
/// its nodes and its conversations are made before they are used, each once, and the tables of the authentication server
/// are told before it is asked. What may refuse a line is left to agents and to what is recorded.
pub fn names_in_made_scripts_are_known()
    ensures { MadeIsNamed }
{}
