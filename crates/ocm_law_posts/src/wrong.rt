//! What the laws rest on: for each of these letters, hosts, documents and replies, which they leave out, a law would be
//! false. Each counterexample is computed, as the contract of a function that does nothing.

ghost use Rattle.std.specs.Prelude.{◌≡◌, ℕ, List, [], codes, false, Err, Ok, Some, option_map};
ghost use Rattle.url.specs.Host.{parse_special_host};
ghost use Rattle.url.specs.declared.host.Host.TheVariants.{Ipv4};
ghost use Rattle.ocm_types.specs.declared.letters.Letter.{Letter};
ghost use Rattle.ocm_types.specs.declared.letters.Letter.TheVariants as letters;
ghost use Rattle.ocm_entry.specs.declared.asks.Ask.TheVariants.{Due};
ghost use Rattle.ocm_entry.specs.declared.replies.Reply.TheVariants.{Done};
ghost use Rattle.ocm_records.specs.Notices.{notice};
ghost use Rattle.ocm_records.specs.Written.{notice_data};
ghost use Rattle.ocm_records.specs.declared.faults.Field.TheVariants.{Serial};
ghost use Rattle.ocm_records.specs.declared.faults.RecordFault.TheVariants.{Value};
ghost use Rattle.ocm_dav_pages.specs.Pages.{document_of, page_of};
ghost use Rattle.ocm_dav.specs.declared.configs.Config.{Config};
ghost use Rattle.ocm_pump.specs.Delivery.{post_request};
ghost use Rattle.ocm_pump.specs.Sites.{site_of};
ghost use Rattle.ocm_pump.specs.declared.sites.Site.{Site};
ghost use Rattle.ocm_rules.specs.Cases.{our_host};
ghost use Rattle.ocm_rules.specs.History.{answer};
ghost use Rattle.ocm_entry.specs.Deliveries.{delivered_status, letter_ask};
ghost use Rattle.ocm_law_posts.specs.Answers.{may_answer};
ghost use Rattle.ocm_law_posts.specs.Letters.{IsLetter};
ghost use Rattle.ocm_law_posts.specs.Names.{StandsInUrls, name_of};
ghost use Rattle.ocm_law_posts.specs.Posts.{Asks, IsOurs, IsRequestOf, post_shape};
ghost use Rattle.ocm_law_posts.specs.Wrong.{document_with_path, first_address, number_host, open_message, posted_without_end, site_with_path, uncounted};

/// A change of permissions with the serial 0 is not read back.
pub fn changes_are_counted_from_1()
    ensures { notice (notice_data uncounted) ≡ Err (Value Serial) }
{}

/// A letter that is posted without what stands behind the path for its sort asks nothing.
pub fn letters_are_posted_by_their_sort()
    ensures { (config : Config) (letter : Letter) (fresh : List ℕ) → Asks config (posted_without_end letter) fresh (letter_ask letter fresh) → ⊥ }
{}

/// A post is no message behind which the connection would stay open.
pub fn posts_close_their_connection()
    ensures { (site : Site) (letter : Letter) → IsOurs site → IsLetter letter → IsRequestOf (post_request site letter) (open_message site letter) → ⊥ }
{}

/// A name that is a number does not stand in URLs: it is read as an address, and what is posted by the document of such
/// a host goes to that address.
pub fn a_number_is_read_as_an_address()
    ensures read { parse_special_host (name_of number_host) ≡ Ok (Ipv4 first_address) }
    ensures other { StandsInUrls (name_of number_host) → ⊥ }
    ensures site { option_map (λ (site : Site). site.host) (site_of (document_of number_host)) ≡ Some (codes "0.0.0.1") }
{}

/// A usable document whose endPoint has another path leads to that path, where no server of this program takes letters.
pub fn an_end_point_has_its_path()
    ensures { site_of document_with_path ≡ Some site_with_path }
{}

/// The page of a reply that answers no letter has another status than an answer to a letter would.
pub fn other_replies_have_other_pages()
    ensures page { (page_of Done post_shape).status ≡ 204 }
    ensures answer { delivered_status Done ≡ 201 }
{}

/// What is replied to another ask answers no letter.
pub fn other_asks_have_other_replies()
    ensures { may_answer (letters.Notice uncounted) (answer our_host [] Due) ≡ false }
{}
