//! Laws: a text is one subnet, and a file is one list.

ghost use Rattle.std.specs.Prelude.{◌≡◌, ℕ, List};
ghost use Rattle.ban_list.specs.BanFile.{HasOneMeaning};
ghost use Rattle.ban_list.specs.Subnet.{IsProper};
ghost use Rattle.ban_list.specs.SubnetText.{IsSubnetTextBy};
ghost use Rattle.ban_list.specs.declared.ban.BanRule.{BanRule};
ghost use Rattle.ban_list.specs.declared.subnet.Subnet.{Subnet};

/// A text is, by each rule, the text of at most one subnet, and that is a proper one.
pub fn texts_have_one_meaning()
    ensures one { (rule : BanRule) (text : List ℕ) (a b : Subnet) → IsSubnetTextBy rule text a →
        IsSubnetTextBy rule text b → a ≡ b }
    ensures proper { (rule : BanRule) (text : List ℕ) (s : Subnet) →
        IsSubnetTextBy rule text s → IsProper s }
{}

/// Bytes are, by each rule, the file of at most one list of bans and have at most one fault, never
/// both. It is impossible that they are no such file and have no fault.
pub fn files_have_one_meaning()
    ensures { (rule : BanRule) (bytes : List ℕ) → HasOneMeaning rule bytes }
{}
