//! Laws: a written file reads as the value that it was written for, and as the same list of bans;
//! the name of a subnet parses as the subnet; what is read by this rule has such names.

ghost use Rattle.std.specs.Prelude.{◌≡◌, ℕ, All, List, Option, Some};
ghost use Rattle.ban_laws.specs.Known.{HasName, HasTimes};
ghost use Rattle.ban_list.specs.BanFile.{IsListFile};
ghost use Rattle.ban_list.specs.Bans.{AreBans};
ghost use Rattle.ban_list.specs.NewFile.{IsNamedFile, named_tree};
ghost use Rattle.ban_list.specs.Subnet.{IsProper};
ghost use Rattle.ban_list.specs.SubnetText.{IsSubnetTextBy, subnet_name};
ghost use Rattle.ban_list.specs.declared.ban.Ban.{Ban};
ghost use Rattle.ban_list.specs.declared.ban.BanRule.TheVariants.{Names};
ghost use Rattle.ban_list.specs.declared.subnet.Subnet.{Subnet};
ghost use Rattle.json.specs.Json.{document};

/// What is written of a list by the rule of Bitcoin Core reads as the value that it was written
/// for: the old members in their order, with the bans and the elements that are no bans in the
/// list.
pub fn files_have_values()
    ensures { (old : Option (List ℕ)) (bans : List Ban) (text : List ℕ) → All HasTimes bans →
        (file : IsNamedFile old bans text) →
        document text ≡ Some (named_tree file.members file.elements file.sorted) }
{}

/// The name of a subnet parses as the subnet, but that of an address of CJDNS outside of fc00::/8.
pub fn names_are_read_back()
    ensures { (s : Subnet) → IsProper s → HasName s → IsSubnetTextBy Names (subnet_name s) s }
{}

/// So what is written is the file of the same bans, sorted, and of no others.
pub fn lists_are_read_back()
    ensures { (old : Option (List ℕ)) (bans : List Ban) (text : List ℕ) → AreBans bans →
        All HasTimes bans → All (λ ban. HasName ban.subnet) bans →
        (file : IsNamedFile old bans text) → IsListFile Names text file.sorted }
{}

/// Subnets that are parsed by this rule, and bans that are read, are such that these laws hold of
/// them.
pub fn read_bans_have_names()
    ensures parsed { (text : List ℕ) (s : Subnet) → IsSubnetTextBy Names text s → HasName s }
    ensures names { (bytes : List ℕ) (bans : List Ban) → IsListFile Names bytes bans →
        All (λ ban. HasName ban.subnet) bans }
    ensures times { (bytes : List ℕ) (bans : List Ban) → IsListFile Names bytes bans →
        All HasTimes bans }
{}
