// The responses of the command table, laid in their places.
ghost use Rattle.std.specs.Prelude.{◌≡◌, ◌++◌, cond, ◌≤◌, ◌<◌, length};
ghost use Rattle.tables.specs.Closing.{version_of};
ghost use Rattle.command.specs.Texts.{ascii};
ghost use Rattle.execution.specs.Promise.{response_with};

use crate::{Response, Tables};

impl Response {
    // A text, and zeros after it.
    pub(crate) fn text(text: &[u8]) -> Response
        requires { length text.now ≤ 19 }
        ensures { result ≡ response_with text.now }
    {
        let mut payload = [0u8; 19];
        answer::put(&mut payload, 0, text);
        Response {
            payload,
            length: text.len(),
        }
    }
}

impl Tables {
    // The version that is held for `network`.
    pub(crate) fn version_of(&self, network: u8) -> &[u8]
        requires { network < 100 }
        ensures { result.now ≡ version_of network self.now.versions }
    {
        let at = network as usize * 10;
        &self.versions[at..at + 10]
    }

    // The version of `network` in a response.
    pub(crate) fn version_response(&self, network: u8) -> Response
        requires { network < 100 }
        ensures { result ≡ response_with (ascii "GTS000010" ++ version_of network self.now.versions) }
    {
        let mut payload = [0u8; 19];
        answer::put(&mut payload, 0, b"GTS000010");
        answer::put(&mut payload, 9, self.version_of(network));
        Response {
            payload,
            length: 19,
        }
    }

    // TLR with a wrong layout: outside a load, 010 comes first.
    pub(crate) fn wrong_records(&self) -> Response
        ensures { result ≡ response_with (cond self.now.load.opened (ascii "TLR011") (ascii "TLR010")) }
    {
        if self.load.opened {
            Response::text(b"TLR011")
        } else {
            Response::text(b"TLR010")
        }
    }
}
