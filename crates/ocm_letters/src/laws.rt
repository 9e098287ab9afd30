//! That the values here are those of the rules, where what a view gives is passed.
ghost use Rattle.std.specs.Prelude.{◌≡◌, ℕ, List, Option, map, unwrap_or};
ghost use Rattle.ocm_texts.specs.Hex.{hex};
ghost use Rattle.ocm_path.specs.Paths.{Segments};
ghost use Rattle.ocm_types.specs.declared.addresses.Address.{Address};
ghost use Rattle.ocm_types.specs.declared.rights.Rights.{Rights};
ghost use Rattle.ocm_entry.specs.declared.rows.Share.{Share};
ghost use Rattle.ocm_entry.specs.declared.rows.User.{User};
ghost use Rattle.ocm_rules.specs.Messages.{changed, share_name, offer_of, offered, to_guests};
ghost use Rattle.ocm_rules.specs.Shares.{own_share, child_share};
ghost use Rattle.ocm_rules.specs.Users.{name_of};
ghost use Rattle.ocm_rules.specs.Views.{View};
ghost use Rattle.ocm_letters.specs.Letters.{share_name_from, offer_from, offered_from};
ghost use Rattle.ocm_letters.specs.Mailings.{changed_to_guests};
ghost use Rattle.ocm_letters.specs.Rows.{own_share_from, child_share_from};

/// A share is offered by its host, under its owner's name.
pub fn offers_are_made_from_host_and_name()
    ensures name { (users : List User) (share : Share) → share_name users share ≡ share_name_from (name_of users share.owner) share.root }
    ensures offer { (v : View) (id : ℕ) (share : Share) → offer_of v id share ≡ offer_from v.host (name_of v.users share.owner) id share }
    ensures offered { (v : View) (id : ℕ) (share : Share) → offered v id share ≡ offered_from v.host (name_of v.users share.owner) id share }
{}

/// A share is made from its host, its owner's name and its secret, or from its parent and what it
/// grants.
pub fn shares_are_made_from_names_and_secrets()
    ensures own { (host : List ℕ) (users : List User) (owner : ℕ) (path : Segments) (with : Address) (perms : Rights) (fresh : List ℕ)
        → own_share host users owner path with perms fresh ≡ own_share_from host owner (name_of users owner) path with perms (hex fresh) }
    ensures child { (number : ℕ) (parent : Share) (rights : Rights) (with : Address) (sender_id : List ℕ) (asked : Option Rights) (fresh : List ℕ)
        → child_share number parent rights with sender_id asked fresh ≡ child_share_from number parent (unwrap_or asked rights) with sender_id asked (hex fresh) }
{}

/// The messages of a change to some shares are those to their guests, each with what its guest may do
/// from now on.
#[tactic(auto, using(crate::proofs::GuestMessages::each_rules))]
pub fn changes_are_told_to_guests()
    ensures { (shares : List Share) (serial : ℕ) (perms : ℕ → Rights) (ids : List ℕ)
        → changed_to_guests shares serial (map (λ id. record { id = id; perms = perms id }) ids) ≡ to_guests shares (λ id. changed serial (perms id) id) ids }
{}
