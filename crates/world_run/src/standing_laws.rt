// What is known by names.
ghost use Rattle.std.specs.Prelude.{◌≡◌, ℕ, List, map};
ghost use Rattle.world_history.specs.Acts.{Talk, fids_on};
ghost use Rattle.world_run.specs.PlayStanding.{conv_on};

/// A node holds the fids of the conversations that are open on it.
pub fn a_node_holds_the_fids_of_its_conversations()
    ensures { (node : List ℕ) (talks : List Talk)
        → map (λ o. o.1) (conv_on node talks) ≡ fids_on node talks }
{}
