//! The parts of a path.

ghost use Rattle.user_files.specs.Paths.{IsFolderBefore, IsLastName};

/// The name behind the last slash of a path.
pub fn last_name(path: &str) -> &str
    ensures { IsLastName path.now result.now }
{
    match path.rsplit_once('/') {
        Some((_, name)) => name,
        None => path,
    }
}

/// The folder before the last slash of a path, or the one that a path of one name is read from.
pub fn folder_before(path: &str) -> &str
    ensures { IsFolderBefore path.now result.now }
{
    match path.rsplit_once('/') {
        Some((folder, _)) if folder.is_empty() => "/",
        Some((folder, _)) => folder,
        None => ".",
    }
}
