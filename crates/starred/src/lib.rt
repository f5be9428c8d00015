// Document 01's starred cases, one list under one statement.
#![tactic(auto)]

ghost use Rattle.std.specs.Prelude.{◌≡◌, length};
ghost use Rattle.starred.specs.Cases.{starred, AllHold};

// How many there are; that every one of them holds is part of what is promised.
pub fn count() -> u64
    ensures { (result ≡ length starred) × AllHold starred }
{
    13
}
