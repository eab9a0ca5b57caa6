//! Lines of clients, in whose run ann's first session has one token.

/// A line that makes ann's home.
pub const CREATE: &str = "{\"op\":\"create\",\"account\":\"ann\"}\n";

/// A line that starts ann's first session of a run.
pub const START: &str = "{\"op\":\"start_session\",\"account\":\"ann\",\"intent\":\"decrypt\"}\n";

/// A line that adds the password `main` in it.
pub const ADD_MAIN: &str =
    "{\"op\":\"add_factor\",\"account\":\"ann\",\"token\":\"0000000000000001a04b39174b36cad66d376463cb99835c\",\"label\":\"main\",\"kind\":\"password\",\"secret\":\"pw\"}\n";

/// A line that adds the password `spare` in it.
pub const ADD_SPARE: &str =
    "{\"op\":\"add_factor\",\"account\":\"ann\",\"token\":\"0000000000000001a04b39174b36cad66d376463cb99835c\",\"label\":\"spare\",\"kind\":\"password\",\"secret\":\"other\"}\n";

/// A line that tries the password `main` with its first secret.
pub const TRY_MAIN: &str =
    "{\"op\":\"authenticate\",\"account\":\"ann\",\"token\":\"0000000000000001a04b39174b36cad66d376463cb99835c\",\"label\":\"main\",\"secret\":\"pw\"}\n";

/// A line that tries it with its second secret.
pub const TRY_NEW: &str =
    "{\"op\":\"authenticate\",\"account\":\"ann\",\"token\":\"0000000000000001a04b39174b36cad66d376463cb99835c\",\"label\":\"main\",\"secret\":\"new\"}\n";

/// A line that tries the password `spare`.
pub const TRY_SPARE: &str =
    "{\"op\":\"authenticate\",\"account\":\"ann\",\"token\":\"0000000000000001a04b39174b36cad66d376463cb99835c\",\"label\":\"spare\",\"secret\":\"other\"}\n";

/// A line that gives `main` its second secret.
pub const UPDATE_MAIN: &str =
    "{\"op\":\"update_factor\",\"account\":\"ann\",\"token\":\"0000000000000001a04b39174b36cad66d376463cb99835c\",\"label\":\"main\",\"secret\":\"new\"}\n";

/// A line that mounts ann's vault.
pub const MOUNT: &str =
    "{\"op\":\"mount\",\"account\":\"ann\",\"token\":\"0000000000000001a04b39174b36cad66d376463cb99835c\"}\n";

/// A line that puts the file `one`.
pub const PUT_ONE: &str =
    "{\"op\":\"put_file\",\"account\":\"ann\",\"name\":\"one\",\"data\":\"01\"}\n";

/// A line that puts the file `two`.
pub const PUT_TWO: &str =
    "{\"op\":\"put_file\",\"account\":\"ann\",\"name\":\"two\",\"data\":\"02\"}\n";

/// A line that lists ann's factors.
pub const LIST_FACTORS: &str = "{\"op\":\"list_factors\",\"account\":\"ann\"}\n";

/// A line that lists ann's files.
pub const LIST_ANN: &str = "{\"op\":\"list_files\",\"account\":\"ann\"}\n";

/// A line that lists bob's files.
pub const LIST_BOB: &str = "{\"op\":\"list_files\",\"account\":\"bob\"}\n";
