//! What several tests are given: requests over an API of widgets, and the replies that they get. Streams over memory stand
//! in `over_memory`.

use std::alloc::Global;
use std::io::{ErrorKind, Read, Write};
use std::net::{SocketAddr, TcpStream};
use std::test::Fail;

/// The list of all widgets.
pub const LIST: &str = "GET /apis/demo.example/v1/widgets HTTP/1.1\r\nHost: localhost\r\n\r\n";

/// Its reply where there is none.
pub const NO_ITEMS: &str =
    "HTTP/1.1 200 OK\r\nContent-Type: application/json\r\nContent-Length: 98\r\nConnection: close\r\n\r\n{\"apiVersion\":\"demo.example/v1\",\"items\":[],\"kind\":\"WidgetList\",\"metadata\":{\"resourceVersion\":\"1\"}}";

/// The first apply.
pub const APPLY: &str =
    "PATCH /apis/demo.example/v1/namespaces/default/widgets/w1?fieldManager=alice HTTP/1.1\r\nHost: localhost\r\nContent-Type: application/apply-patch+yaml\r\nContent-Length: 107\r\n\r\n{\"apiVersion\":\"demo.example/v1\",\"kind\":\"Widget\",\"metadata\":{\"name\":\"w1\"},\"spec\":{\"image\":\"a\",\"replicas\":3}}";

/// Its reply.
pub const CREATED: &str =
    "HTTP/1.1 201 Created\r\nContent-Type: application/json\r\nContent-Length: 317\r\nConnection: close\r\n\r\n{\"apiVersion\":\"demo.example/v1\",\"kind\":\"Widget\",\"metadata\":{\"managedFields\":[{\"apiVersion\":\"demo.example/v1\",\"fieldsType\":\"FieldsV1\",\"fieldsV1\":{\"f:spec\":{\"f:image\":{},\"f:replicas\":{}}},\"manager\":\"alice\",\"operation\":\"Apply\"}],\"name\":\"w1\",\"namespace\":\"default\",\"resourceVersion\":\"2\"},\"spec\":{\"image\":\"a\",\"replicas\":3}}";

/// The prefix of a request.
pub const HALF: &str = "GET / HTTP/1.1\r\n";

/// A watch of all widgets.
pub const WATCH: &str =
    "GET /apis/demo.example/v1/widgets?watch=true HTTP/1.1\r\nHost: localhost\r\n\r\n";

/// What it gets once the first apply was served.
pub const ADDED: &str =
    "HTTP/1.1 200 OK\r\nContent-Type: application/json\r\nTransfer-Encoding: chunked\r\nConnection: close\r\n\r\n158\r\n{\"type\":\"ADDED\",\"object\":{\"apiVersion\":\"demo.example/v1\",\"kind\":\"Widget\",\"metadata\":{\"managedFields\":[{\"apiVersion\":\"demo.example/v1\",\"fieldsType\":\"FieldsV1\",\"fieldsV1\":{\"f:spec\":{\"f:image\":{},\"f:replicas\":{}}},\"manager\":\"alice\",\"operation\":\"Apply\"}],\"name\":\"w1\",\"namespace\":\"default\",\"resourceVersion\":\"2\"},\"spec\":{\"image\":\"a\",\"replicas\":3}}}\n\r\n";

/// What it gets then where nothing before the current revision is kept: the apply overtook it.
pub const OVERTAKEN: &str =
    "HTTP/1.1 200 OK\r\nContent-Type: application/json\r\nTransfer-Encoding: chunked\r\nConnection: close\r\n\r\na9\r\n{\"type\":\"ERROR\",\"object\":{\"apiVersion\":\"v1\",\"code\":410,\"kind\":\"Status\",\"message\":\"too old resource version: 1 (2)\",\"metadata\":{},\"reason\":\"Expired\",\"status\":\"Failure\"}}\n\r\n0\r\n\r\n";

/// The list as it was before the first apply.
pub const BEFORE: &str =
    "GET /apis/demo.example/v1/widgets?resourceVersion=1&resourceVersionMatch=Exact HTTP/1.1\r\nHost: localhost\r\n\r\n";

/// Its reply once revisions before the current one are forgotten.
pub const EXPIRED: &str =
    "HTTP/1.1 410 Gone\r\nContent-Type: application/json\r\nContent-Length: 142\r\nConnection: close\r\n\r\n{\"apiVersion\":\"v1\",\"code\":410,\"kind\":\"Status\",\"message\":\"too old resource version: 1 (2)\",\"metadata\":{},\"reason\":\"Expired\",\"status\":\"Failure\"}";

/// A connection over loopback that has sent this.
pub fn sent(rt: &HostRuntime, addr: SocketAddr, text: &str) -> Result<TcpStream, Fail> {
    let mut stream = TcpStream::connect(rt, addr)?;
    stream.write_all(text.as_bytes())?;
    Ok(stream)
}

/// What a stream gives behind its text.
#[derive(Clone, Copy)]
pub enum End {
    /// Its end.
    Comes,
    /// Nothing for now.
    Stays,
}

/// Whether a stream that was heard gives nothing for now.
fn is_quiet(mut stream: &TcpStream) -> Result<bool, Fail> {
    stream.set_nonblocking(true)?;
    let more = stream.read(&mut [0; 1]);
    stream.set_nonblocking(false)?;
    match more {
        Ok(_) => Ok(false),
        Err(fault) => Ok(fault.kind() == ErrorKind::WouldBlock),
    }
}

/// The test fails unless a stream gives just this text, and then its end or nothing for now.
pub fn expect_received(
    alloc: Global,
    stream: &TcpStream,
    text: &str,
    end: End,
) -> Result<(), Fail> {
    let mut bytes = Vec::new(alloc);
    let more = match end {
        End::Comes => 1,
        End::Stays => 0,
    };
    let mut prefix = stream.take((text.len() as u64).saturating_add(more));
    prefix.read_to_end(&mut bytes)?;
    expect(
        bytes.as_slice() == text.as_bytes(),
        "another text was heard",
    )?;
    match end {
        End::Comes => Ok(()),
        End::Stays => expect(is_quiet(stream)?, "more was heard"),
    }
}

/// The test fails unless this holds.
pub fn expect(holds: bool, otherwise: &'static str) -> Result<(), Fail> {
    if !holds {
        return Err(Fail::from(otherwise));
    }
    Ok(())
}
