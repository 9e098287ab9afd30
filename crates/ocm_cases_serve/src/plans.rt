//! Plans of rows.
use ocm_base::Text;
use ocm_cases_rows::cut;
use ocm_serve_options::{Peers, Plan};
use ocm_types::{Host, Secret};
use std::alloc::Global;

/// The plan of the words `serve --host HOST --disk DISK --admin ADMIN`, one space between two. Of other options a server that
/// is handed its workers and its disk reads nothing: they are none here. None for words that do not begin so, and where memory
/// was wanting.
pub fn plan_of(alloc: Global, words: &str) -> Option<Plan> {
    let words = words.strip_prefix("serve")?;
    let host = Host::read(alloc, option_at(words, " --host ")).ok();
    let admin = Secret::read(alloc, option_at(words, " --admin ")).ok();
    match host.zip(admin) {
        Some((host, admin)) => Some(planned(alloc, host, admin)),
        None => None,
    }
}

fn planned(alloc: Global, host: Host, admin: Secret) -> Plan {
    Plan {
        host,
        disk: nothing(alloc),
        existing: false,
        admin,
        listen: nothing(alloc),
        workers: 1,
        key_file: nothing(alloc),
        connections: 0,
        peers: Peers::Public,
    }
}

fn nothing(alloc: Global) -> Text {
    Text::from_string(String::new(alloc))
}

/// The word behind such a mark.
fn option_at<'a>(words: &'a str, mark: &str) -> &'a str {
    let (_, behind) = cut(words, mark);
    let (word, _) = cut(behind, " ");
    word
}
