//! The commands of a client.

/// A command: the first byte of the packet by which a client asks for something.
///
/// <https://dev.mysql.com/doc/dev/mysql-server/latest/my__command_8h.html>
#[derive(Clone, Copy, Debug, PartialEq, Eq)]
#[allow(non_camel_case_types)]
pub enum Command {
    /// Internal to the server.
    COM_SLEEP = 0,
    /// Ends the connection.
    COM_QUIT = 1,
    /// Changes the current database.
    COM_INIT_DB = 2,
    /// Runs a statement given as text.
    COM_QUERY = 3,
    /// Lists the columns of a table. Deprecated.
    COM_FIELD_LIST = 4,
    /// Makes a database. Deprecated.
    COM_CREATE_DB = 5,
    /// Drops a database. Deprecated.
    COM_DROP_DB = 6,
    /// Flushes caches and logs. Deprecated.
    COM_REFRESH = 7,
    /// Formerly `COM_SHUTDOWN`. Unused.
    COM_DEPRECATED_1 = 8,
    /// Asks for a line of the server's statistics.
    COM_STATISTICS = 9,
    /// Lists the server's connections. Deprecated.
    COM_PROCESS_INFO = 10,
    /// Internal to the server.
    COM_CONNECT = 11,
    /// Ends another connection. Deprecated.
    COM_PROCESS_KILL = 12,
    /// Has the server write what it knows for debugging into its log.
    COM_DEBUG = 13,
    /// Asks whether the server is there.
    COM_PING = 14,
    /// Internal to the server.
    COM_TIME = 15,
    /// Internal to the server.
    COM_DELAYED_INSERT = 16,
    /// Begins the session anew, as another user.
    COM_CHANGE_USER = 17,
    /// Asks for the binary log from a position.
    COM_BINLOG_DUMP = 18,
    /// Formerly asked for a whole table, in replication. Unused.
    COM_TABLE_DUMP = 19,
    /// Internal to the server.
    COM_CONNECT_OUT = 20,
    /// Says who a replica is.
    COM_REGISTER_SLAVE = 21,
    /// Prepares a statement.
    COM_STMT_PREPARE = 22,
    /// Executes a prepared statement.
    COM_STMT_EXECUTE = 23,
    /// Sends a piece of a parameter ahead of `COM_STMT_EXECUTE`.
    COM_STMT_SEND_LONG_DATA = 24,
    /// Forgets a prepared statement.
    COM_STMT_CLOSE = 25,
    /// Forgets what was sent of a prepared statement's parameters, and closes its cursor.
    COM_STMT_RESET = 26,
    /// Allows or forbids several statements in one text.
    COM_SET_OPTION = 27,
    /// Asks for rows of a cursor.
    COM_STMT_FETCH = 28,
    /// Internal to the server.
    COM_DAEMON = 29,
    /// Asks for the binary log from a set of transactions.
    COM_BINLOG_DUMP_GTID = 30,
    /// Begins the session anew, as the same user.
    COM_RESET_CONNECTION = 31,
    /// The number after all of MySQL's commands.
    COM_END = 32,
    /// MariaDB: executes a prepared statement for many rows of parameters.
    COM_STMT_BULK_EXECUTE = 250,
}
