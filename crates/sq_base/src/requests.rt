//! Requests: a method, a target and its parts, and header fields.
use crate::addresses::Addr;
use crate::bytes::Text;
use crate::listed::Listed;
use crate::memory::{Copying, WantOfMemory};
use std::alloc::Global;
use std::marker::Model;

/// A header field.
#[derive(PartialEq, Eq)]
pub struct Field {
    pub name: Text,
    pub value: Text,
}

impl Drop for Field {
    fn drop(self) {
        let Field { name: _, value: _ } = self;
    }
}

/// A list of header fields.
pub type Fields = Listed<Field>;

impl Copying for Field {
    fn copy(&self, alloc: Global) -> Result<Field, WantOfMemory> {
        let name = self.name.copy(alloc)?;
        let value = self.value.copy(alloc)?;
        Ok(Field { name, value })
    }
}

/// A request. Scheme and host are in lower case; scheme and path are empty for CONNECT; the path has
/// the query. The parts of the target are always those of its method and target.
pub struct Request {
    pub method: Text,
    pub target: Text,
    pub scheme: Text,
    pub host: Text,
    pub literal: Option<Addr>,
    pub port: u16,
    pub path: Text,
    pub minor: u8,
    pub fields: Fields,
}

impl Drop for Request {
    fn drop(self) {
        let Request {
            method: _,
            target: _,
            scheme: _,
            host: _,
            literal: _,
            port: _,
            path: _,
            minor: _,
            fields: _,
        } = self;
    }
}

impl Model for Request {
    ghost use Rattle.sq_base.specs.Requests.{HttpRequest, IsRequest};

    ghost Value = { HttpRequest };

    ghost view = { λ r. record {
      method = r.method;
      target = r.target;
      scheme = r.scheme;
      host = r.host;
      literal = r.literal;
      port = r.port;
      path = r.path;
      minor = r.minor;
      fields = r.fields;
    } };

    ghost invariant = { λ r. IsRequest
        (record {
          method = r.method;
          target = r.target;
          scheme = r.scheme;
          host = r.host;
          literal = r.literal;
          port = r.port;
          path = r.path;
          minor = r.minor;
          fields = r.fields;
        }) };
}

impl Copying for Request {
    fn copy(&self, alloc: Global) -> Result<Request, WantOfMemory> {
        let method = self.method.copy(alloc)?;
        let target = self.target.copy(alloc)?;
        let scheme = self.scheme.copy(alloc)?;
        let host = self.host.copy(alloc)?;
        let path = self.path.copy(alloc)?;
        let fields = self.fields.copy(alloc)?;
        Ok(Request {
            method,
            target,
            scheme,
            host,
            literal: self.literal,
            port: self.port,
            path,
            minor: self.minor,
            fields,
        })
    }
}
