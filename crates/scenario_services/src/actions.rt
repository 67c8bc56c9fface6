ghost use Rattle.std.specs.Prelude.{◌≡◌, map};
ghost use Rattle.scenario_services.specs.Actions.{sdo_action_of, sdo_keys_of, other_action_of, action_of, keys_of};

/// What a service of CoE does.
#[derive(Clone, Copy)]
pub(crate) enum SdoAction {
    /// Writes an entry.
    Download,
    /// Reads an entry.
    Upload,
    /// Writes all entries of an object.
    DownloadAll,
    /// Reads all entries of an object.
    UploadAll,
    /// Asks for a list of objects.
    List,
    /// Asks for the description of an object.
    ObjectInfo,
    /// Asks for the description of an entry.
    EntryInfo,
}

/// What a service does.
#[derive(Clone, Copy)]
pub(crate) enum Action {
    /// A service of CoE.
    Sdo(SdoAction),
    /// Reads a file.
    ReadFile,
    /// Writes a file.
    WriteFile,
    /// Reads an element of an IDN.
    ReadIdn,
    /// Writes an element of an IDN.
    WriteIdn,
    /// Sets the address block.
    SetIp,
    /// Reads the address block.
    GetIp,
    /// Asks for an AL state.
    State,
}

fn word_sdo(word: &str) -> Option<SdoAction>
    ensures { result ≡ sdo_action_of word.now }
{
    if word == "download" {
        Some(SdoAction::Download)
    } else if word == "upload" {
        Some(SdoAction::Upload)
    } else if word == "download_all" {
        Some(SdoAction::DownloadAll)
    } else if word == "upload_all" {
        Some(SdoAction::UploadAll)
    } else if word == "list" {
        Some(SdoAction::List)
    } else if word == "object" {
        Some(SdoAction::ObjectInfo)
    } else if word == "entry" {
        Some(SdoAction::EntryInfo)
    } else {
        None
    }
}

fn known_for_sdo(action: SdoAction) -> &'static [&'static str]
    ensures { map (λ k. k.now) result.now ≡ sdo_keys_of action }
{
    match action {
        SdoAction::Download => &["slave", "do", "index", "sub", "value"],
        SdoAction::Upload => &["slave", "do", "index", "sub"],
        SdoAction::DownloadAll => &["slave", "do", "index", "from", "value"],
        SdoAction::UploadAll => &["slave", "do", "index", "from"],
        SdoAction::List => &["slave", "do", "kind"],
        SdoAction::ObjectInfo => &["slave", "do", "index"],
        SdoAction::EntryInfo => &["slave", "do", "index", "sub"],
    }
}

fn word_other(word: &str) -> Option<Action>
    ensures { result ≡ other_action_of word.now }
{
    if word == "read_file" {
        Some(Action::ReadFile)
    } else if word == "write_file" {
        Some(Action::WriteFile)
    } else if word == "read_idn" {
        Some(Action::ReadIdn)
    } else if word == "write_idn" {
        Some(Action::WriteIdn)
    } else if word == "set_ip" {
        Some(Action::SetIp)
    } else if word == "get_ip" {
        Some(Action::GetIp)
    } else if word == "state" {
        Some(Action::State)
    } else {
        None
    }
}

/// What a word of `do` says.
pub(crate) fn word_action(word: &str) -> Option<Action>
    ensures { result ≡ action_of word.now }
{
    match word_sdo(word) {
        Some(action) => Some(Action::Sdo(action)),
        None => word_other(word),
    }
}

/// The keys of a service.
pub(crate) fn known_for(action: Action) -> &'static [&'static str]
    ensures { map (λ k. k.now) result.now ≡ keys_of action }
{
    match action {
        Action::Sdo(action) => known_for_sdo(action),
        Action::ReadFile => &["slave", "do", "name", "password"],
        Action::WriteFile => &["slave", "do", "name", "password", "value"],
        Action::ReadIdn => &["slave", "do", "drive", "number", "elements"],
        Action::WriteIdn => &["slave", "do", "drive", "number", "elements", "value"],
        Action::SetIp => &["slave", "do", "block"],
        Action::GetIp => &["slave", "do"],
        Action::State => &["slave", "do", "target"],
    }
}
