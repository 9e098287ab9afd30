//! What `help` and `version` write.

/// The commands, the options of `serve` and the exit statuses, on one screen.
pub const HELP: &[u8] = br"ocmd: a file sharing server for Open Cloud Mesh API 1.1, and its tools

Usage: ocmd COMMAND ..

  replay                 read a script, write its transcript
  trace HOST             read a script, write HOST's journal and log of reads
  audit                  read a journal's file, write what its records say
  logcheck               read what trace writes, test each line of the log
  compact                read a journal's file, write it anew in its least form
  check KIND             read a message body, write its one form or its fault
  drill NUMBER EVENTS    run a script made of NUMBER, write its summary
  serve OPTIONS          run a server until it is killed
  dav VERB HOST SECRET PATH
                         ask a server: get and list write, put sends the input
  help, --help           write this text; behind serve or dav its own options
  version, --version     write the version

KIND is discovery, offer, notice or error. VERB is get, put, delete, mkcol or
list. EVENTS is at most 90000. What is read is the standard input, and what is
written the standard output.

Options of serve; host, disk and one of the two for the key have to be there:
  --host HOST            the server's name, with :PORT where that is not 80
  --disk FILE            the journal's file
  --existing             refuse to start if that file is missing
  --admin KEY            the administrator's key
  --admin-file FILE      the file that holds it, in place of --admin
  --listen ADDRESS       where to listen; default 127.0.0.1:8080
  --workers NUMBER       how many threads, 1 to 64; default 4
  --key-file FILE        32 random bytes; default /dev/urandom
  --connections NUMBER   for each worker, 0 for no end; default 0
  --log FILE             what readers were answered, for logcheck
  --peers KIND           whom to deliver to, public or private; default public

Exit status:
   0  done                             9  the input is too long
   1  no such command                 10  serve: another host's journal
   2  a bad line in the input         11  serve: a door failed
   3  the input can't be read         12  serve: address or file not usable
   4  the output can't be written     13  dav: the exchange failed
   5  out of memory                   14  dav: what came back is no reply
   6  serve: the disk failed          15  dav: the server refused
   7  the file is no journal          16  dav: no discovery document
   8  the message body has a fault    17  a line of the log is false
                                      18  compact: the result differs
";

/// The version of the program, and of the interface that it speaks.
pub const VERSION: &[u8] = b"ocmd 0.9.0 (Open Cloud Mesh API 1.1)\n";

/// What `serve --help` writes: the options of `serve`.
pub const SERVE_HELP: &[u8] = br"Usage: ocmd serve OPTIONS

Runs a server until it is killed. It listens on an address of this machine and
speaks no TLS: put a proxy in front.

Options that have to be there:
  --host HOST            the server's name, with :PORT where that is not 80
  --disk FILE            the journal's file
  --admin-file FILE      the file that holds the administrator's key; or
  --admin KEY            the key itself, which other users of this machine see

Other options:
  --listen ADDRESS       where to listen; default 127.0.0.1:8080
  --workers NUMBER       how many threads, 1 to 64; default 4
  --connections NUMBER   for each worker, 0 for no end; default 0
  --key-file FILE        32 random bytes; default /dev/urandom
  --log FILE             what readers were answered, for logcheck
  --peers KIND           public: nothing is delivered to loopback, private or
                         link-local addresses, unless HOST is such an address;
                         private: to any address; default public
  --existing             refuse to start if the journal's file is missing

Example:
  ocmd serve --host files.example --disk /var/lib/ocmd/journal --existing \
    --admin-file /etc/ocmd/admin.key --listen 127.0.0.1:8080 --workers 16
";

/// What `dav --help` writes: the words of `dav`.
pub const DAV_HELP: &[u8] = br"Usage: ocmd dav VERB HOST SECRET PATH

Asks the server of HOST for files, over WebDAV without TLS. Where the files are
is told by the discovery document of HOST.

VERB:
  get                    write the file at PATH
  list                   write what stands in the folder at PATH, as XML
  put                    put a file there, which is the standard input
  delete                 delete what is there
  mkcol                  make a folder there

HOST is the server's name, with :PORT where that is not 80. SECRET is a user's
key, or the secret of a share. PATH begins with '/', and is escaped as in a URL.

Example:
  ocmd dav get files.example KEY /notes.txt
";
