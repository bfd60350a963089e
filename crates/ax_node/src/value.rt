//! Values of attributes.
ghost use Rattle.std.specs.Prelude.{◌≡◌, ◌↔◌, IfOk, IsTrue};
ghost use Rattle.ax_node.specs.Kinds.{value_kind};

use ax_attrs::Kind;
use ax_base::{NoMemory, NodeId, Text, TreeId};

/// The value of an attribute.
#[derive(Debug, PartialEq, Eq, Drop)]
pub enum Value {
    Text(Text),
    Int(i32),
    Flag(bool),
    /// A node of the same tree.
    Node(NodeId),
    Tree(TreeId),
}

impl Value {
    pub fn kind(&self) -> Kind
        ensures { result ≡ value_kind self.now }
    {
        match self {
            Value::Text(_) => Kind::Text,
            Value::Int(_) => Kind::Int,
            Value::Flag(_) => Kind::Flag,
            Value::Node(_) => Kind::Node,
            Value::Tree(_) => Kind::Tree,
        }
    }

    pub fn same(&self, other: &Value) -> bool
        ensures { IsTrue result ↔ (self.now ≡ other.now) }
    {
        match (self, other) {
            (Value::Text(a), Value::Text(b)) => a.same(b),
            (Value::Int(a), Value::Int(b)) => *a == *b,
            (Value::Flag(a), Value::Flag(b)) => *a == *b,
            (Value::Node(a), Value::Node(b)) => *a == *b,
            (Value::Tree(a), Value::Tree(b)) => *a == *b,
            _ => false,
        }
    }

    /// It takes no memory: a text is shared.
    pub fn copy(&self) -> Result<Value, NoMemory>
        ensures { IfOk result (λ v. v ≡ self.now) }
    {
        match self {
            Value::Text(text) => {
                let text = text.copy()?;
                Ok(Value::Text(text))
            }
            Value::Int(number) => Ok(Value::Int(*number)),
            Value::Flag(flag) => Ok(Value::Flag(*flag)),
            Value::Node(node) => Ok(Value::Node(*node)),
            Value::Tree(tree) => Ok(Value::Tree(*tree)),
        }
    }
}
