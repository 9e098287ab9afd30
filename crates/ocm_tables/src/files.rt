//! What stands on the server.
ghost use Rattle.std.specs.Prelude.{◌≡◌, ◌≢◌, ◌<◌, None, if◌then◌else◌, nat_eq, option_copied};
ghost use Rattle.ocm_entry.specs.declared.rows.Standing.TheVariants.{Collection, File};
ghost use Rattle.ocm_rules.specs.Files.{limit_of, nodes_after, parent_of};
ghost use Rattle.ocm_rules.specs.Answers.{is_collection};
ghost use Rattle.ocm_rules.specs.State.{view_in};
ghost use Rattle.ocm_law_origins.specs.Origins.{body_from, origins_after, put_of};
ghost use Rattle.ocm_tables.specs.Changes.{entries_after, file_act};

use crate::changes::TableChange;
use crate::tables::Tables;
use ocm_base::Bytes;
use ocm_entry::{Place, Standing};
use ocm_tree::Tree;
use ocm_types::Which;

impl Tables {
    /// What stands at a place. At each user's root a collection stands.
    pub fn standing_at(&self, place: &Place) -> Option<&Standing>
        ensures { option_copied result ≡ (view_in self.now.state).stands place.now }
    {
        self.files.standing_at(place)
    }

    /// Whether a collection stands at a place.
    pub fn is_collection(&self, place: &Place) -> bool
        ensures { result ≡ is_collection ((view_in self.now.state).stands place.now) }
    {
        self.files.is_collection(place)
    }

    /// The first limit that would be passed once a file with these bytes stands at a place. The parent is
    /// the place that the file's place lies in.
    pub fn limit_of_file(&self, place: &Place, parent: &Place, body: &Bytes) -> Option<Which>
        requires { parent.now ≡ parent_of place.now }
        ensures { result ≡ limit_of self.now.state.nodes (record { place = place.now; standing = File body.now }) }
    {
        self.files.limit_of(place, parent, body)
    }

    /// The first limit that would be passed once a collection stands at a place.
    pub fn limit_of_collection(&self, place: &Place, parent: &Place) -> Option<Which>
        requires { parent.now ≡ parent_of place.now }
        ensures { result ≡ limit_of self.now.state.nodes (record { place = place.now; standing = Collection }) }
    {
        self.files.limit_of_collection(place, parent)
    }

    /// The files, for what takes longer to tell: listings, copies and moves.
    pub fn files(&self) -> &Tree
        ensures { result.now.nodes ≡ self.now.state.nodes }
    {
        &self.files
    }

    /// What the change of this number put, where it still stands once this change is made, which is the
    /// next one. None where nothing stands by it then.
    pub fn standing_by<'a>(&'a self, number: u64, change: &'a TableChange) -> Option<&'a Standing>
        ensures earlier { number ≢ entries_after self.now.entries change.now → option_copied result
            ≡ body_from (nodes_after (file_act change.now) self.now.state.nodes) (origins_after (file_act change.now) (entries_after self.now.entries change.now) self.now.origins) number }
        // At the largest number the count stands still, so that more than one change may have it.
        ensures any { self.now.entries < 18446744073709551615 → option_copied result
            ≡ body_from (nodes_after (file_act change.now) self.now.state.nodes) (origins_after (file_act change.now) (entries_after self.now.entries change.now) self.now.origins) number }
    {
        match self.own_standing(number, change) {
            Some(standing) => Some(standing),
            None => self.files.standing_by(number, &change.file_change()),
        }
    }

    /// What a change puts, where this is its number.
    fn own_standing<'a>(&self, number: u64, change: &'a TableChange) -> Option<&'a Standing>
        ensures { option_copied result ≡ (if nat_eq number (entries_after self.now.entries change.now) then put_of (file_act change.now) else None) }
    {
        if number == self.entries_after(change) {
            change.standing()
        } else {
            None
        }
    }

    /// How many changes there are once this one is made.
    pub(crate) fn entries_after(&self, change: &TableChange) -> u64
        ensures { result ≡ entries_after self.now.entries change.now }
    {
        if change.is_kept() {
            self.entries.saturating_add(1)
        } else {
            self.entries
        }
    }
}
