// Which paths name the one directory of a host, and which can name a file in it.
ghost use Rattle.std.specs.Prelude.{◌≡◌};
ghost use Rattle.handles.specs.Names.{is_dot, is_name};

pub fn is_dot(path: &[u8]) -> bool
    ensures { result ≡ is_dot path.now }
{
    path == b".".as_slice()
}

pub fn is_name(path: &[u8]) -> bool
    ensures { result ≡ is_name path.now }
{
    !path.is_empty() && path.len() <= 32 && !path.contains(&b'/')
}
