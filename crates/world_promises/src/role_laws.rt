// Laws of roles, each the contract of a function that does nothing.
ghost use Rattle.roles.specs.Starts.{Start};
ghost use Rattle.wire_histories.specs.Conversations.{speaker};
ghost use Rattle.world_promises.specs.Roles.{IsRole};

/// Each conversation speaks as a role should, whatever it was started with: an end stays, what searches hasn't ended, a message
/// that is got needs nothing, and bytes by which something is needed are taken or the write is undone.
pub fn each_role_is_a_role()
    ensures { (start : Start) → IsRole (speaker start) }
{}
