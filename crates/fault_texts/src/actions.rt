ghost use Rattle.std.specs.Prelude.{◌≡◌, map, option_map};
ghost use Rattle.fault_texts.specs.Actions.{keys_of, octets_of};

/// The words of `do`.
pub const ACTIONS: &[&str] = &[
    "download",
    "upload",
    "download_all",
    "upload_all",
    "list",
    "object",
    "entry",
    "read_file",
    "write_file",
    "read_idn",
    "write_idn",
    "set_ip",
    "get_ip",
    "state",
];

/// The keys of a service, by its word of `do`. None of another word.
#[tactic(auto, unfolding(crate::specs::Actions::keys_of))]
pub fn keys_of(action: &str) -> Option<&'static [&'static str]>
    ensures { option_map (λ keys. map (λ key. key.now) keys.now) result ≡ keys_of action.now }
{
    match action {
        "download" => Some(&["slave", "do", "index", "sub", "value"]),
        "upload" => Some(&["slave", "do", "index", "sub"]),
        "download_all" => Some(&["slave", "do", "index", "from", "value"]),
        "upload_all" => Some(&["slave", "do", "index", "from"]),
        "list" => Some(&["slave", "do", "kind"]),
        "object" => Some(&["slave", "do", "index"]),
        "entry" => Some(&["slave", "do", "index", "sub"]),
        "read_file" => Some(&["slave", "do", "name", "password"]),
        "write_file" => Some(&["slave", "do", "name", "password", "value"]),
        "read_idn" => Some(&["slave", "do", "drive", "number", "elements"]),
        "write_idn" => Some(&["slave", "do", "drive", "number", "elements", "value"]),
        "set_ip" => Some(&["slave", "do", "block"]),
        "get_ip" => Some(&["slave", "do"]),
        "state" => Some(&["slave", "do", "target"]),
        _ => None,
    }
}

/// The least and the greatest number of octets that a service writes, by its word of `do`.
#[tactic(auto, unfolding(crate::specs::Actions::octets_of))]
pub fn octets_of(action: &str) -> (u64, u64)
    ensures { result ≡ octets_of action.now }
{
    match action {
        "download" => (1, 8000),
        "download_all" => (1, 16_000),
        "write_idn" => (1, 4096),
        _ => (0, 131_072),
    }
}
