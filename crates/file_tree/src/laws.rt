// Laws of the definitions, each the contract of a function that does nothing.
ghost use Rattle.std.specs.Prelude.{◌≡◌, ◌≢◌, ◌↔◌, ◌≤◌, ◌<◌, ℕ, List, [], ◌∷◌, ◌++◌, Option, None, Some, true, false, codes, length, option_and_then};
ghost use Rattle.file_tree.specs.declared.tree.Node.{Node};
ghost use Rattle.file_tree.specs.declared.tree.Node.TheVariants.{Root};
ghost use Rattle.file_tree.specs.declared.tree.FidState.{FidState};
ghost use Rattle.file_tree.specs.Tree.{file, files_in, is_directory, lead_to, parent, step, visited};
ghost use Rattle.file_tree.specs.Calls.{at_rest, node_of, open_fault, opens, walked};
ghost use Rattle.file_tree.specs.Directories.{dir_bytes, files_read, read_on, records, size_of};

/// Each file but the root is found by its name in the directory in which it stands; `..` leads from a directory to
/// that in which it stands; and under a file nothing is there.
pub fn names_lead_down_and_up()
    ensures down { (node : Node) → node ≢ Root → step (parent node) (file node).name ≡ Some node }
    ensures up { (node : Node) → is_directory node ≡ true
        → step node (codes "..") ≡ Some (parent node) }
    ensures nothing_under_a_file { (node : Node) (name : List ℕ) → is_directory node ≡ false
        → step node name ≡ None }
{}

/// Two files have different paths.
pub fn a_path_is_of_one_file()
    ensures { (one other : Node) → (file one).path ≡ (file other).path → one ≡ other }
{}

/// A walk comes to at most as many files as there are names. Where it comes to fewer, not all names lead anywhere, and
/// newfid is what it was; where it comes to as many, newfid names a file.
pub fn a_walk_moves_only_to_its_end()
    ensures at_most { (node : Node) (names : List (List ℕ))
        → length (visited node names) ≤ length names }
    ensures exactly { (node : Node) (names : List (List ℕ))
        → (lead_to node names ≡ None) ↔ (length (visited node names) < length names) }
    ensures stays { (fid newfid : Option FidState) (names : List (List ℕ))
        → length (visited (node_of fid) names) < length names → walked fid newfid names ≡ newfid }
    ensures last { (node end : Node) (names : List (List ℕ)) (name : List ℕ)
        → lead_to node (names ++ name ∷ []) ≡ Some end
        → (front : List Node) × (visited node (names ++ name ∷ []) ≡ front ++ end ∷ []) }
{}

/// A walk by names comes to where walks by some of them and then by the others come.
pub fn a_walk_may_be_made_in_parts()
    ensures { (node : Node) (names others : List (List ℕ))
        → lead_to node (names ++ others)
        ≡ option_and_then (λ next. lead_to next others) (lead_to node names) }
{}

/// A file that isn't open is opened in reading; and where it is written also in writing and in both, each of these also
/// with OTRUNC; and in no other mode of a byte.
pub fn a_file_is_opened_in_these_modes()
    ensures { (node : Node) (mode : ℕ) → mode < 256
        → (open_fault (Some (at_rest node)) mode ≡ None) ↔ (opens node mode ≡ true) }
{}

/// Reads of a directory from 0 on, each from where the one before it ended, give its files from the first on, in their
/// order and none twice, whatever the counts are. A count that holds the next record gives it, and at the end there is
/// nothing more.
pub fn reads_give_the_files_in_order()
    ensures in_order { (node : Node) (counts : List ℕ)
        → (left : List Node) × (read_on node 0 counts ++ left ≡ files_in node) }
    ensures next { (node next : Node) (before others : List Node) (count : ℕ)
        → files_in node ≡ before ++ next ∷ others → size_of next ≤ count
        → (more : List Node) × (files_read node (length (records before)) count ≡ next ∷ more) }
    ensures end { (node : Node) (count : ℕ)
        → dir_bytes node (length (records (files_in node))) count ≡ [] }
{}
