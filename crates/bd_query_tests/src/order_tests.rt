//! The order of values that are made by hand, and of keys; the laws of values and of paths.
use bd_path::{
    Dir, Key, compare_in, compare_keys, keys_are_there, sorts_order_all_documents,
    sparse_keys_are_the_rest,
};
use bd_value::{
    Class, Tree, Value, class, class_of_node, compare, compare_nodes, equal, equals_have_one_class,
    numbers_are_one_line, orders_all_values, pairs_compare_in_turn, try_copy,
};
use std::test::Fail;

/// Whether a value equals the int64 7, and is greater than null, by each function that compares.
fn is_seven(value: &Value) -> bool {
    let long = Value::Int64(7);
    let are_numbers = class(value) == Class::Number
        && class_of_node(Tree::Value(&long)) == Class::Number;
    let is_equal = equal(value, &long)
        && compare_nodes(Tree::Value(value), Tree::Value(&long)).is_eq();
    are_numbers && is_equal && compare(&Value::Null, value).is_lt() && !equal(&Value::Null, value)
}

#[test]
fn orders_values_in_memory(rt: HostRuntime) -> Result<(), Fail> {
    let copy = try_copy(rt.alloc(), &Value::Int32(7))?;
    assert!(rt; matches!(&copy, Value::Int32(7)) && is_seven(&copy));
    Ok(())
}

/// Keys that are not nodes, between values.
#[test]
fn orders_keys(rt: HostRuntime) {
    let keys = [
        Key::Node(Tree::Value(&Value::MinKey)),
        Key::Undefined,
        Key::Null,
        Key::Node(Tree::Value(&Value::Int32(5))),
        Key::Node(Tree::Value(&Value::MaxKey)),
    ];
    for i in 0..5 {
        for j in 0..5 {
            let want = i.cmp(&j);
            assert!(rt; compare_keys(keys[i], keys[j]) == want, "{i} and {j}");
            assert!(rt;
                compare_in(Dir::Up, keys[i], keys[j]) == want,
                "{i} and {j}"
            );
            assert!(rt;
                compare_in(Dir::Down, keys[i], keys[j]) == want.reverse(),
                "{i} and {j}"
            );
        }
    }
}

/// Calls of laws, which have no body.
#[test]
fn has_laws() {
    orders_all_values();
    equals_have_one_class();
    numbers_are_one_line();
    pairs_compare_in_turn();
    keys_are_there();
    sparse_keys_are_the_rest();
    sorts_order_all_documents();
}
